// The verdict of a query tried, and counted: a refuted query's sheet is checked, drawn and judged; for a proved query graphs are made and
// judged. (vectors/README.md, "The circle") Whatever is otherwise than it should be is written as a line.
use draw::Drawing;
use graph::Judged;
use refusals::Refusal;
use search_outcomes::Verdict;
use sheet_checked::Checked;
use streams::STDOUT;

// Where each count stands.
pub const REFUTED: usize = 0;

pub const PASSING: usize = 1;

pub const DRAWN: usize = 2;

pub const MET: usize = 3;

pub const BROKEN: usize = 4;

pub const GRAPHS: usize = 5;

pub const MEETING: usize = 6;

pub const EDGED: usize = 7;

pub const HOLDING: usize = 8;

pub const BREAKING: usize = 9;

// One more of a count.
fn count(counts: &mut [u64], i: usize) {
    if counts.len() <= i {
        return;
    }
    if counts[i] < 1000000000 {
        counts[i] += 1;
    }
}

// One more of a count, where the test holds.
fn count_if(counts: &mut [u64], i: usize, test: bool) {
    if test {
        count(counts, i);
    }
}

// Whether the claim breaks.
fn breaks(j: Result<Judged, Refusal>) -> bool {
    match j {
        Ok(Judged::Holds(_)) | Err(_) => false,
        Ok(Judged::BreaksAt(_, _) | Judged::BreaksFrom(_, _, _)) => true,
    }
}

// Writes where something is otherwise.
fn write_place(place: u64) {
    io::write_all(STDOUT, b"query ");
    io::print_decimal(STDOUT, place);
}

// Says that a refuted query does not agree.
fn disagrees(place: u64) {
    write_place(place);
    io::write_all(STDOUT, b" does not agree\n");
}

// Counts the judgement of a drawn graph.
fn drawn_judged(j: Result<Judged, Refusal>, place: u64, counts: &mut [u64]) {
    let met = broken_lines::broken_line(j) == 0;
    let broken = breaks(j);
    count(counts, DRAWN);
    count_if(counts, MET, met);
    count_if(counts, BROKEN, broken);
    if met & broken {
        return;
    }
    disagrees(place);
}

// Draws the graph of a passing sheet and judges it; one of more than 64 events has no bytes.
fn draw_and_judge(query: &[u8], sheet: &[u8], place: u64, graph: &mut [u8], counts: &mut [u64]) {
    let d = draw::draw(query, sheet, graph);
    match d {
        Drawing::Graph(n) => drawn_judged(
            graph::judge(query, texts::first(graph, n)),
            place,
            counts,
        ),
        Drawing::TooLarge(_) => return,
        _ => disagrees(place),
    }
}

// A refuted query: its sheet is checked, drawn and judged.
fn refuted(query: &[u8], sheet: &[u8], place: u64, graph: &mut [u8], counts: &mut [u64]) {
    count(counts, REFUTED);
    let c = sheet::check(query, sheet);
    match c {
        Checked::Refuted => {
            count(counts, PASSING);
            draw_and_judge(query, sheet, place, graph, counts);
        }
        _ => disagrees(place),
    }
}

// Counts the judgement of a graph that was made for a proved query.
fn made_judged(
    j: Result<Judged, Refusal>,
    edged: bool,
    place: u64,
    number: u64,
    counts: &mut [u64],
) {
    let met = broken_lines::broken_line(j) == 0;
    let broken = breaks(j);
    count(counts, GRAPHS);
    count_if(counts, MEETING, met);
    count_if(counts, EDGED, met & edged);
    count_if(counts, HOLDING, met & !broken);
    count_if(counts, BREAKING, !met & broken);
    if met & broken {
        write_place(place);
        io::write_all(STDOUT, b" breaks in graph ");
        io::print_decimal(STDOUT, number);
        io::write_all(STDOUT, b"\n");
    }
}

// A proved query: 24 graphs are made and judged. The number that goes on.
fn proved(query: &[u8], place: u64, from: u64, graph: &mut [u8], counts: &mut [u64]) -> u64 {
    let tests = crate::graphs::declared(query, b"test");
    let relations = crate::graphs::declared(query, b"rel");
    let mut state = from;
    for number in 1..25 {
        let m = crate::graphs::next_graph(query, tests, relations, state, graph);
        state = m.state;
        let n = m.bytes;
        made_judged(
            graph::judge(query, texts::first(graph, n)),
            m.edged,
            place,
            number,
            counts,
        );
    }
    state
}

// One case: the query is searched, and its verdict tried. The number that goes on.
pub fn tried(
    r: Result<Verdict, Refusal>,
    query: &[u8],
    sheet: &[u8],
    place: u64,
    state: u64,
    graph: &mut [u8],
    counts: &mut [u64],
) -> u64 {
    match r {
        Ok(Verdict::Proved(_, _)) => proved(query, place, state, graph, counts),
        Ok(Verdict::Refuted(_, _)) => {
            refuted(query, sheet, place, graph, counts);
            state
        }
        Err(_) => state,
    }
}
