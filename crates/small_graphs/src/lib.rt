// Numbers by arithmetic alone, so that another program can make the same ones, and the bytes of small graphs. (vectors/README.md, "The
// circle") A graph has at most 8 events; a relation on them is a word, bit 8 * from + to for an edge. Definitions say what each result is.
#![tactic(auto)]

ghost use Rattle.std.specs.Prelude.{◌<◌, cond, [], ◌∷◌, ◌≡◌, take};
ghost use Rattle.small_graphs.specs.Graphs.{edge_field, edge_fields, event_field, event_fields, graph_bytes};
ghost use Rattle.case_lines.specs.Fields.{Puts};
ghost use Rattle.small_graphs.specs.Numbers.{next_number, number_below};
ghost use Rattle.small_graphs.specs.Relations.{Edges, bit, edge, over, through as reached, with_edge};

// The number behind x.
pub fn next(x: u64) -> u64
    ensures { result ≡ next_number x }
{
    (x % 2147483648 * 1103515245 + 12345) % 2147483648
}

// The number below `end` that x stands for; 0 where there is none.
pub fn below(x: u64, end: usize) -> usize
    ensures { result ≡ number_below x end }
{
    if end == 0 {
        return 0;
    }
    (x / 65536) as usize % end
}

// The relation with one edge more; an event from 8 on has none.
pub fn with_edge(r: u64, from: usize, to: usize) -> u64
    ensures { result ≡ with_edge r from to }
{
    if 8 <= from {
        return r;
    }
    if 8 <= to {
        return r;
    }
    r | (1 << (8 * from + to))
}

// Whether the relation has the edge of this bit.
fn has(r: u64, place: usize) -> bool
    ensures { result ≡ bit place r }
{
    if 64 <= place {
        return false;
    }
    (r >> place) & 1 == 1
}

// The relation with the edges that go from one event to another over a third.
fn through(r: u64, middle: usize) -> u64
    requires { middle < 8 }
    ensures { Edges result (over middle (edge r)) }
{
    let row = (r >> (8 * middle)) & 255;
    let mut all = r;
    for from in 0..8 {
        if has(r, 8 * from + middle) {
            all = all | (row << (8 * from));
        }
    }
    all
}

// The transitive closure.
pub fn closed(r: u64) -> u64
    ensures { Edges result (reached 8 r) }
{
    let mut all = r;
    for middle in 0..8 {
        all = through(all, middle);
    }
    all
}

// One byte behind those so far, where there is room.
fn put(to: &mut [u8], at: usize, b: u8) -> usize
    ensures { Puts to.old at (b ∷ []) result to.new }
{
    if at < to.len() {
        to[at] = b;
        return at + 1;
    }
    at
}

// The field of an event.
fn put_event(to: &mut [u8], at: usize, atom: u8) -> usize
    ensures { Puts to.old at (event_field atom) result to.new }
{
    let a = put(to, at, 1);
    let b = put(to, a, 0);
    let c = put(to, b, 1);
    put(to, c, atom)
}

// The field of the edge of this bit, which is below 64, of a relation below 16.
fn put_edge(to: &mut [u8], at: usize, relation: usize, place: usize) -> usize
    ensures { Puts to.old at (edge_field relation place) result to.new }
{
    let a = put(to, at, 2);
    let b = put(to, a, 0);
    let c = put(to, b, 3);
    let d = put(to, c, (relation % 16) as u8);
    let e = put(to, d, (place / 8 % 8) as u8);
    put(to, e, (place % 8) as u8)
}

// The fields of the events.
fn put_events(atoms: &[u8], count: usize, to: &mut [u8]) -> usize
    ensures { Puts to.old 0 (event_fields (take count atoms.now)) result to.new }
{
    let mut at = 0;
    for i in 0..count {
        if atoms.len() <= i {
            return at;
        }
        at = put_event(to, at, atoms[i]);
    }
    at
}

// The field of the edge of this bit, where the relation has it.
fn put_bit(r: u64, relation: usize, place: usize, to: &mut [u8], at: usize) -> usize
    ensures { Puts to.old at (cond (bit place r) (edge_field relation place) []) result to.new }
{
    if has(r, place) {
        return put_edge(to, at, relation, place);
    }
    at
}

// The fields of the edges of a relation.
fn put_relation(r: u64, relation: usize, from: usize, to: &mut [u8]) -> usize
    ensures { Puts to.old from (edge_fields relation r) result to.new }
{
    let mut at = from;
    for place in 0..64 {
        at = put_bit(r, relation, place, to, at);
    }
    at
}

// The bytes of a graph, as far as there is room: its events, and then its edges by relation, from and to. How many there are.
pub fn write(atoms: &[u8], count: usize, edges: &[u64], relations: usize, to: &mut [u8]) -> usize
    ensures { Puts to.old 0 (graph_bytes (take count atoms.now) (take relations edges.now))
        result to.new }
{
    let mut at = put_events(atoms, count, to);
    for i in 0..relations {
        if edges.len() <= i {
            return at;
        }
        at = put_relation(edges[i], i, at, to);
    }
    at
}
