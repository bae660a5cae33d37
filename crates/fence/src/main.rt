// The program for all calls: a query's verdict, its sheet, the check of a sheet, the drawn graph, the judgement of a graph. It reads files,
// calls what is proved of slices, and writes: on standard output the line of document 01 ("The desk's cases") or the bytes, and on standard
// error what a refusal or a judgement means. With no argument it is the query program of document 01. From 4,097 bytes on a query is too
// long, whatever follows, so no more are read. A sheet is read up to the longest one's bytes and a standing more: a longer one has a field within them
// that is wrong, the 4,097th standing at the latest, or the field behind a refuted sheet's word, so that it is refused alike. Each kind of call
// has its own memory.
#![tactic(auto)]

use arguments::Call;
use streams::STDERR;

mod input; // input.rt: the arguments and the files that they name
mod output; // output.rt: what is written
mod help; // help.rt: what the program does, in a screen
mod verdict; // verdict.rt: the calls of a verdict and of its sheet
mod sheets; // sheets.rt: the calls with a sheet
mod judgement; // judgement.rt: the call of the judge

// The argument that does not fit.
fn wrong(rt: HostRuntime, i: usize) {
    let mut word = io::buffer();
    let n = input::argument(rt, i, &mut word).unwrap_or(0);
    io::write_all(STDERR, b"fence: this argument does not fit: ");
    io::write_all(STDERR, &word[..n]);
    io::write_all(STDERR, b"\nfence --help tells the calls\n");
}

// An argument is missing.
fn short() {
    io::write_all(
        STDERR,
        b"fence: an argument is missing\nfence --help tells the calls\n",
    );
}

// A call without a sheet.
fn answer(rt: HostRuntime, call: Call) {
    match call {
        Call::Query(allowance, file) => verdict::verdict(rt, file, allowance),
        Call::Sheet(allowance, file) => verdict::searched(rt, file, allowance, true),
        Call::Judge(query, graph) => judgement::judge(rt, query, graph),
        Call::Help => help::write_help(),
        Call::Wrong(i) => wrong(rt, i),
        _ => short(),
    }
}

fn main(rt: HostRuntime) {
    let call = input::call(rt);
    match sheets::of_call(call) {
        Some(of) => sheets::with_sheet(rt, of.asked, of.query, of.sheet),
        None => answer(rt, call),
    }
}
