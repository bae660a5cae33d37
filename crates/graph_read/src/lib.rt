// A graph read field by field: its events' atoms and its relations as rows of sets, or the first wrong field. (Document 01, "Sheet and graph
// bytes" and refusal 12.) An edge repeated is found by its bit.
#![tactic(auto)]

ghost use Rattle.std.specs.Prelude.{ℕ, ◌+◌, ◌≤◌, ◌<◌, min, ◌≡◌, Bool, true, drop};
ghost use Rattle.claims.specs.Fields.{next_field};
ghost use Rattle.claims.specs.GraphBytes.{Listed, with_event, with_edge, with_field, graph_in};
ghost use Rattle.memory.specs.Memory.{zeros};
ghost use Rattle.codes.specs.Codes.{MOST-RELATIONS};
ghost use Rattle.graph_read.specs.Layout.{MOST-EVENTS, GRAPH};
ghost use Rattle.graph_read.specs.Reading.{Says, left_words};
ghost use Rattle.graph_read.specs.inner.Steps.{Held, Takes, Turns, Leaves};

use codes::MOST_RELATIONS;
use memory::wide;

// The events that a graph may have.
pub const MOST_EVENTS: usize = 64;

// Where the events' atoms begin in the memory of a graph: behind the rows, of which each relation has one for each event.
pub const ATOMS_AT: usize = MOST_EVENTS * MOST_RELATIONS;

// The words of a graph in memory.
pub const GRAPH: usize = ATOMS_AT + MOST_EVENTS;

// A graph in memory: for each relation the row of each event, bit y of row x being the edge from x to y, and then the events' atoms.
pub type Graph = [u64; GRAPH];

// After a good field: where the next one starts, how many events there are, and whether an edge came.
#[derive(Clone, Copy)]
struct Turn {
    next: usize,
    events: usize,
    edged: bool,
}

// One event more, after n: its atom is stored. Whether the contents are an event's: one byte, an atom of the query, no edge before it, and fewer
// than MOST_EVENTS events.
fn add_event(contents: &[u8], atoms: usize, n: usize, edged: bool, listed: &mut Graph) -> bool
    ensures { (relations : ℕ) (G : Listed) → Held G n edged listed.old
        → Takes (with_event (record { atoms = atoms; relations = relations }) G contents.now) result (n + 1) edged listed.new }
{
    if contents.len() != 1 {
        return false;
    }
    let a = wide(contents[0]) as usize;
    if atoms <= a {
        return false;
    }
    if edged {
        return false;
    }
    if MOST_EVENTS <= n {
        return false;
    }
    listed[ATOMS_AT + n] = a as u64;
    true
}

// One edge more: its bit is set. Whether the contents are an edge's: three bytes, a relation of the query, two of the n events, and a bit that
// is not set yet.
fn add_edge(contents: &[u8], relations: usize, n: usize, listed: &mut Graph) -> bool
    requires { (relations ≤ MOST-RELATIONS) × (n ≤ MOST-EVENTS) }
    ensures { (atoms : ℕ) (G : Listed) (edged : Bool) → Held G n edged listed.old
        → Takes (with_edge (record { atoms = atoms; relations = relations }) G contents.now) result n true listed.new }
{
    if contents.len() != 3 {
        return false;
    }
    let r = wide(contents[0]) as usize;
    let x = wide(contents[1]) as usize;
    let y = wide(contents[2]) as usize;
    if relations <= r {
        return false;
    }
    if n <= x {
        return false;
    }
    if n <= y {
        return false;
    }
    let row = MOST_EVENTS * r + x;
    if bits::member(listed[row], y) {
        return false;
    }
    listed[row] = bits::with(listed[row], y);
    true
}

// The field at a place, unless it is wrong: tag 1 is an event, tag 2 an edge, and any other tag is wrong.
fn add_field(
    bytes: &[u8],
    at: usize,
    atoms: usize,
    relations: usize,
    n: usize,
    edged: bool,
    listed: &mut Graph,
) -> Option<Turn>
    requires { (relations ≤ MOST-RELATIONS) × (n ≤ MOST-EVENTS) }
    ensures { (G : Listed) → Held G n edged listed.old
        → Turns bytes.now at
        (with_field (record { atoms = atoms; relations = relations }) G (next_field (drop at bytes.now))) listed.new result }
{
    let Some(field) = fields::next(bytes, at) else {
        return None;
    };
    let contents = &bytes[field.from..field.to];
    if field.tag == 1 {
        if add_event(contents, atoms, n, edged, listed) {
            return Some(Turn {
                next: field.to,
                events: n + 1,
                edged,
            });
        }
        return None;
    }
    if field.tag == 2 {
        if add_edge(contents, relations, n, listed) {
            return Some(Turn {
                next: field.to,
                events: n,
                edged: true,
            });
        }
        return None;
    }
    None
}

// All fields, one after another, into memory that is clear: how many events there are, or the number of the first wrong field, counted from 1.
fn add_fields(
    bytes: &[u8],
    atoms: usize,
    relations: usize,
    listed: &mut Graph,
) -> Result<usize, usize>
    requires { (relations ≤ MOST-RELATIONS) × (listed.old ≡ zeros GRAPH) }
    ensures says { Says (graph_in (record { atoms = atoms; relations = relations }) bytes.now) result }
    ensures leaves { Leaves result listed.new (left_words (graph_in (record { atoms = atoms; relations = relations }) bytes.now)) }
{
    let mut at = 0;
    let mut n = 0;
    let mut edged = false;
    let mut k = 1;
    while at < bytes.len() {
        let Some(turn) = add_field(bytes, at, atoms, relations, n, edged, listed) else {
            return Err(k);
        };
        at = turn.next;
        n = turn.events;
        edged = turn.edged;
        k += 1;
    }
    Ok(n)
}

// Reads the graph that the bytes are, of a query with so many atoms and relations, of which MOST_RELATIONS count: the number of its events, or
// that of the first wrong field, counted from 1. After the first `listed` has the rows and the events' atoms; after a wrong field all is zero.
pub fn read(
    bytes: &[u8],
    atoms: usize,
    relations: usize,
    listed: &mut Graph,
) -> Result<usize, usize>
    ensures says { Says (graph_in (record { atoms = atoms; relations = min relations MOST-RELATIONS }) bytes.now) result }
    ensures leaves { listed.new ≡ left_words (graph_in (record { atoms = atoms; relations = min relations MOST-RELATIONS }) bytes.now) }
{
    memory::clear(listed);
    let r = add_fields(
        bytes,
        atoms,
        memory::least(relations, MOST_RELATIONS),
        listed,
    );
    match r {
        Ok(n) => Ok(n),
        Err(k) => {
            memory::clear(listed);
            Err(k)
        }
    }
}
