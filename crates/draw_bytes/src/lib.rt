// The bytes of a drawn graph, from the numbers of a word: the events with their atoms, then the edges by relation, from and to. (Document 01,
// "Words", Drawn graph, and "Sheet and graph bytes".) They can be counted before they are written; what does not fit is not written. The
// numbers of events and of relations are bytes, as those in the fields are, so that no count is too large.
#![tactic(auto)]

ghost use Rattle.std.specs.Prelude.{ℕ, ◌≤◌, ◌≡◌, List, get_or, length};
ghost use Rattle.claims.specs.GraphWriting.{event_field, edge_field, edge_of};
ghost use Rattle.print_line.specs.Puts.{Puts};
ghost use Rattle.draw_rows.specs.Rows.{table_at};
ghost use Rattle.draw_bytes.specs.Fields.{events_bytes, row_bytes, rows_bytes};
ghost use Rattle.draw_bytes.specs.Bytes.{relation_bytes, edges_bytes, bytes_of};

use draw_rows::table;
use memory::{least, word as row};
use print_line::put_text;

// The byte at a place, which past the end is 0.
fn byte(bs: &[u8], i: usize) -> u8
    ensures { result ≡ get_or bs.now i 0 }
{
    if i < bs.len() { bs[i] } else { 0 }
}

// An event.
fn put_event(out: &mut [u8], at: usize, a: u8) -> usize
    ensures { Puts out.old at (event_field a) result out.new }
{
    let field = [1u8, 0, 1, a];
    put_text(out, at, &field)
}

// The first n events of a word.
fn put_events(out: &mut [u8], at: usize, word: &[u8], n: u8) -> usize
    ensures { Puts out.old at (events_bytes word.now n) result out.new }
{
    let mut to = least(at, out.len());
    for i in 0..n {
        to = put_event(out, to, byte(word, 2 * (i as usize)));
    }
    to
}

// An edge.
fn put_edge(out: &mut [u8], at: usize, r: u8, x: u8, y: u8) -> usize
    ensures { Puts out.old at (edge_field (edge_of r x y)) result out.new }
{
    let field = [2u8, 0, 3, r, x, y];
    put_text(out, at, &field)
}

// The edges of relation r from event x, to the members of a set.
fn put_row(out: &mut [u8], at: usize, r: u8, x: u8, s: u64) -> usize
    ensures { Puts out.old at (row_bytes r x s) result out.new }
{
    let mut to = least(at, out.len());
    let mut left = s;
    while left != 0 {
        let y = u64::trailing_zeros(left) as u8;
        to = put_edge(out, to, r, x, y);
        left = left & (left - 1);
    }
    to
}

// The edges of relation r, by the rows of the first n events.
fn put_rows(out: &mut [u8], at: usize, r: u8, rows: &[u64], n: u8) -> usize
    ensures { Puts out.old at (rows_bytes r n rows.now) result out.new }
{
    let mut to = least(at, out.len());
    for x in 0..n {
        to = put_row(out, to, r, x, row(rows, x as usize));
    }
    to
}

// The edges of relation r among n events, by its table.
fn put_relation(out: &mut [u8], at: usize, n: u8, tables: &[[u64; 64]], r: u8) -> usize
    ensures { Puts out.old at (relation_bytes n (table_at tables.now) r) result out.new }
{
    let rows = table(tables, r as usize);
    put_rows(out, at, r, &rows, n)
}

// The edges of all relations.
fn put_edges(out: &mut [u8], at: usize, n: u8, tables: &[[u64; 64]], relations: u8) -> usize
    ensures { Puts out.old at (edges_bytes n (table_at tables.now) relations) result out.new }
{
    let mut to = memory::least(at, out.len());
    for r in 0..relations {
        to = put_relation(out, to, n, tables, r);
    }
    to
}

// The graph of n events with the atoms of a word and the edges of the tables.
pub fn put_graph(out: &mut [u8], word: &[u8], n: u8, tables: &[[u64; 64]], relations: u8) -> usize
    ensures { Puts out.old 0 (bytes_of word.now n (table_at tables.now) relations) result out.new }
{
    let to = put_events(out, 0, word, n);
    put_edges(out, to, n, tables, relations)
}

// How many bytes the edges to the members of a set take.
fn row_length(s: u64) -> usize
    ensures { (result ≤ 384) × ((r x : ℕ) → result ≡ length (row_bytes r x s)) }
{
    6 * (u64::count_ones(s) as usize)
}

// How many bytes the edges of a relation take, by the rows of the first n events.
fn rows_length(rows: &[u64], n: u8) -> usize
    ensures { (result ≤ 97920) × ((r : ℕ) → result ≡ length (rows_bytes r n rows.now)) }
{
    let mut sum = 0;
    for x in 0..n {
        sum += row_length(row(rows, x as usize));
    }
    sum
}

// How many bytes the edges of relation r take.
fn relation_length(n: u8, tables: &[[u64; 64]], r: u8) -> usize
    ensures { (result ≤ 97920) × (result ≡ length (relation_bytes n (table_at tables.now) r)) }
{
    let rows = table(tables, r as usize);
    rows_length(&rows, n)
}

// How many bytes the graph takes.
pub fn graph_length(n: u8, tables: &[[u64; 64]], relations: u8) -> usize
    ensures { (bs : List ℕ) → result ≡ length (bytes_of bs n (table_at tables.now) relations) }
{
    let mut sum = 4 * (n as usize);
    for r in 0..relations {
        sum += relation_length(n, tables, r);
    }
    sum
}
