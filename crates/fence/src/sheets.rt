// The calls with a sheet: the query and the sheet are read, and the sheet is checked or its graph drawn. What is read and written no contract
// can say.
use crate::input::TEXT;
use arguments::Call;
use layout::{EDGE_BYTES, EVENT_BYTES, LONGEST_SHEET, RING_FIELD};

// A longer sheet has a field within so many bytes that is wrong, the 4,097th standing at the latest.
const SHEET: usize = LONGEST_SHEET + RING_FIELD;

const GRAPH: usize = EVENT_BYTES + EDGE_BYTES;

// What is asked of a sheet: whether it passes, or the graph that it draws, as bytes or as text.
#[derive(Clone, Copy)]
pub enum Asked {
    Check,
    Graph,
    Text,
}

// A call with a sheet: what it asks of it, and the arguments that name the query and the sheet.
#[derive(Clone, Copy)]
pub struct OfSheet {
    pub asked: Asked,
    pub query: usize,
    pub sheet: usize,
}

// Draws the graph of a sheet.
fn draw_from(as_text: bool, query: &[u8], sheet: &[u8], graph: &mut [u8], out: &mut [u8]) {
    let r = draw::draw(query, sheet, graph);
    crate::output::show_graph(r, as_text, query, sheet, graph, out);
}

// Answers what is asked of a sheet.
fn answer(asked: Asked, query: &[u8], sheet: &[u8], graph: &mut [u8], out: &mut [u8]) {
    match asked {
        Asked::Check => crate::output::show_check(sheet::check(query, sheet), query, out),
        Asked::Graph => draw_from(false, query, sheet, graph, out),
        Asked::Text => draw_from(true, query, sheet, graph, out),
    }
}

// The query and the sheet are read into the memory, and what is asked is answered.
fn sheet_into(
    rt: HostRuntime,
    asked: Asked,
    query: usize,
    sheet: usize,
    text: &mut [u8],
    buffer: &mut [u8],
    graph: &mut [u8],
    out: &mut [u8],
) {
    let Some(n) = crate::input::read(rt, query, text) else {
        return;
    };
    let Some(m) = crate::input::read(rt, sheet, buffer) else {
        return;
    };
    answer(
        asked,
        texts::first(text, n),
        texts::first(buffer, m),
        graph,
        out,
    );
}

// A call with a sheet, with memory for the longest sheet and a standing more, and for every drawn graph: only where all steps of a ring have one
// relation does closing join every event with every other, so that there are no more edges than one relation may have.
pub fn with_sheet(rt: HostRuntime, asked: Asked, query: usize, sheet: usize) {
    let mut text = [0u8; TEXT];
    let mut buffer = [0u8; SHEET];
    let mut graph = [0u8; GRAPH];
    let mut out = [0u8; 262144];
    sheet_into(
        rt,
        asked,
        query,
        sheet,
        &mut text,
        &mut buffer,
        &mut graph,
        &mut out,
    );
}

// How a graph is drawn: as text, or as bytes.
fn drawn(as_text: bool) -> Asked {
    if as_text {
        return Asked::Text;
    }
    Asked::Graph
}

// What a call asks of a sheet, if it is one that has a sheet. So the memory of such a call has one place in the program.
pub fn of_call(call: Call) -> Option<OfSheet> {
    match call {
        Call::Check(query, sheet) => Some(OfSheet {
            asked: Asked::Check,
            query,
            sheet,
        }),
        Call::Draw(as_text, query, sheet) => Some(OfSheet {
            asked: drawn(as_text),
            query,
            sheet,
        }),
        _ => None,
    }
}
