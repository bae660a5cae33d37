// The judge of graphs: a query and an execution graph give the first line that the graph breaks, or 0, and whether the claim holds in it, with
// the lowest event or pair that breaks it. (Document 01, "Sheet and graph bytes", last paragraph.) The query is read first, refusals 1 to 8, and
// then the graph, refusal 12 at its first wrong field. It knows nothing of words, standings or sheets.
#![tactic(auto)]

ghost use Rattle.std.specs.Prelude.{min, ◌≡◌, length, take, Ok};
ghost use Rattle.claims.specs.Refusals.{ok};
ghost use Rattle.claims.specs.Judgement.{Judgement};
ghost use Rattle.claims.specs.Calls.{judge_call};
ghost use Rattle.side_items.specs.Items.{items_of};
ghost use Rattle.graph_judge.specs.Machine.{performed_all, beginning};
ghost use Rattle.graph_judge.specs.Outcome.{outcome_of};
ghost use Rattle.graph.specs.Answers.{result_of};
ghost use Rattle.graph.specs.Meanings.{IsMeaning};
ghost use Rattle.graph.specs.inner.Closing.{judged_words};

use graph_read::{GRAPH, Graph};
use graph_tables::JudgedSoFar;
use memory::least;
use query::Facts;
use refusals::{Reason, Refusal};

// The first broken line, or 0, and of the claim: it holds, this event breaks it, or the pair from this event to that one does.
#[derive(Clone, Copy, PartialEq, Eq)]
pub enum Judged {
    Holds(usize),
    BreaksAt(usize, usize),
    BreaksFrom(usize, usize, usize),
}

// The answer from the first broken line and what was found of the claim, one of rings or not.
fn answer(ring: bool, line: usize, found: usize) -> Judged
    ensures { result_of (Ok result) ≡ ok (record { line = line; outcome = outcome_of ring found }) }
{
    if rows::NOWHERE <= found {
        return Judged::Holds(line);
    }
    if ring {
        return Judged::BreaksAt(line, found);
    }
    Judged::BreaksFrom(line, found / 64, found % 64)
}

// The graph that is judged: its relations are the listed edges, and nothing is closed.
fn close_relations(listed: &mut Graph, n: usize)
    ensures { listed.new ≡ judged_words n listed.old }
{}

// The judge over the first k codes, of which 4,096 count, on a graph of n events. What each code needs is this call's own memory.
fn judge_first(listed: &Graph, n: usize, codes: &[u64], k: usize) -> JudgedSoFar
    ensures { result ≡ (performed_all listed.now (beginning n) (items_of (take (min k 4096) codes.now))).state }
{
    let m = least(least(k, 4096), codes.len());
    let mut args = [0u64; 4096];
    side_items::find_args(&codes[..m], &mut args[..m]);
    graph_judge::judge(listed, n, &codes[..m], &args[..m])
}

// The same of the array that the reading of a query leaves.
fn judge_codes(listed: &Graph, n: usize, codes: &[u64; 4096], k: usize) -> JudgedSoFar
    ensures sized { length codes.now ≡ 4096 }
    ensures judged { result ≡ (performed_all listed.now (beginning n) (items_of (take (min k 4096) codes.now))).state }
{
    judge_first(listed, n, codes, k)
}

// Judges the graph for the query that the text is. An answer is the relational meaning of the graph that the bytes are.
pub fn judge(text: &[u8], graph: &[u8]) -> Result<Judged, Refusal>
    ensures judges { result_of result ≡ judge_call text.now graph.now }
    ensures means { (j : Judgement) → result_of result ≡ ok j → IsMeaning text.now graph.now j }
{
    let mut codes = [0u64; 4096];
    let mut listed = [0u64; GRAPH];
    let f = query::read_codes(text, &mut codes)?;
    let r = graph_read::read(graph, f.atoms, f.relations, &mut listed);
    match r {
        Err(place) => Err(Refusal {
            why: Reason::GraphField,
            place,
        }),
        Ok(n) => {
            close_relations(&mut listed, n);
            let s = judge_codes(&listed, n, &codes, f.codes);
            Ok(answer(f.ring, s.broken, s.found))
        }
    }
}
