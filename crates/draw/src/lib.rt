// The drawn graph's bytes, from a query and a sheet from anybody: where the sheet passes as refuted, the graph that its word draws, which meets the
// query's assumptions and breaks its claim. (Document 01, "Words", Drawn graph, and "Sheet and graph bytes".) The query and the sheet are checked
// first, refusals 1 to 8, 13 and 14. For every input the answer is said, and every byte that was lent.
#![tactic(auto)]

ghost use Rattle.std.specs.Prelude.{ℕ, ◌≤◌, ◌≡◌, length, take};
ghost use Rattle.codes.specs.Codes.{MOST-RELATIONS};
ghost use Rattle.side_relations.specs.Relations.{closed_set};
ghost use Rattle.draw_rows.specs.Rows.{event_count, drawn_rows};
ghost use Rattle.draw_bytes.specs.Bytes.{bytes_of};
ghost use Rattle.draw.specs.DrawCall.{drew, draw_call};
ghost use Rattle.draw.specs.Drawings.{Draws};
ghost use Rattle.draw.specs.Breaking.{JudgedToBreak};
ghost use Rattle.draw.specs.declared.Drawing.TheVariants.{Graph};

use codes::MOST_RELATIONS;
use layout::WORD_AT;
use refusals::Reason;
use sheet_checked::Checked;
use side_relations::closed_set;
use side_tables::TABLE;

// The graph's bytes, so many, stand at the start of the lent memory; the graph has so many events, more than 64; the sheet says proved; the
// memory is shorter than the graph; or the reason and the place of a refusal. Only a graph changes the memory.
#[derive(Clone, Copy)]
pub enum Drawing {
    Graph(usize),
    TooLarge(usize),
    Proved,
    Short,
    Refused(Reason, usize),
}

// The graph drawn from the numbers of a word, for a query with these codes and so many relations: all its edges, then its bytes. That there are not more relations than tables
// is required, since the rows of one past them would be blank.
fn draw_word(word: &[u8], ring: bool, codes: &[u64; 4096], relations: u8, out: &mut [u8]) -> Drawing
    requires { relations ≤ MOST-RELATIONS }
    ensures { Draws (drew (event_count ring (length word.now))
        (bytes_of word.now (event_count ring (length word.now))
        (drawn_rows word.now (event_count ring (length word.now)) (closed_set 0 codes.now)) relations) out.old) result out.new }
{
    let n = draw_rows::event_count(ring, word.len());
    if 64 < n {
        return Drawing::TooLarge(n);
    }
    let mut tables = [[0u64; 64]; MOST_RELATIONS];
    draw_rows::fill(word, n, closed_set(codes), &mut tables);
    let size = draw_bytes::graph_length(n as u8, &tables, relations);
    if out.len() < size {
        return Drawing::Short;
    }
    draw_bytes::put_graph(out, word, n as u8, &tables, relations);
    Drawing::Graph(size)
}

// Draws the graph of a sheet for the query that the text is: the word of a sheet that passes as refuted stands behind seven bytes. The judge, given
// the graph's bytes, answers that it meets the assumptions and breaks the claim.
pub fn draw(text: &[u8], sheet: &[u8], out: &mut [u8]) -> Drawing
    ensures draws { Draws (draw_call text.now sheet.now out.old) result out.new }
    ensures breaks { (n : ℕ) → result ≡ Graph n → JudgedToBreak text.now (take n out.new) }
{
    let mut codes = [0u64; 4096];
    let mut left = [0u64; TABLE];
    let mut right = [0u64; TABLE];
    let asked = query::read(text, &mut codes, &mut left, &mut right);
    match asked {
        Err(e) => Drawing::Refused(e.why, e.place),
        Ok(f) => {
            let checked = sheet_checked::check_decided(f, &left, &right, sheet);
            match checked {
                Checked::Proved => Drawing::Proved,
                Checked::Refused(why, place) => Drawing::Refused(why, place),
                Checked::Refuted => draw_word(
                    &sheet[WORD_AT..],
                    f.ring,
                    &codes,
                    f.relations as u8,
                    out,
                ),
            }
        }
    }
}
