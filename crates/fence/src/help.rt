// What the program does, in a screen.
use streams::STDOUT;

// The calls.
fn calls() {
    io::write_all(
        STDOUT,
        b"fence                                     the verdict of the query on standard input\n",
    );
    io::write_all(
        STDOUT,
        b"fence query [--allowance N] [FILE]        the same for a file and an allowance\n",
    );
    io::write_all(
        STDOUT,
        b"fence sheet [--allowance N] QUERY         the bytes of the verdict's sheet\n",
    );
    io::write_all(
        STDOUT,
        b"fence check QUERY SHEET                   whether the sheet passes for the query\n",
    );
    io::write_all(
        STDOUT,
        b"fence draw [--dot] QUERY SHEET            the graph of a refuting sheet, as bytes or as text\n",
    );
    io::write_all(
        STDOUT,
        b"fence judge QUERY GRAPH                   whether the graph meets the query's lines, and the claim\n",
    );
    io::write_all(STDOUT, b"fence --help                              this\n");
}

// What they write.
fn answers() {
    io::write_all(
        STDOUT,
        b"\nFILE, QUERY, SHEET and GRAPH are names of files, - is standard input. N is from 1 to 4096, 200 unless given.\n",
    );
    io::write_all(
        STDOUT,
        b"The first word on standard output tells what came of it:\n",
    );
    io::write_all(
        STDOUT,
        b"  proved, with the number of standings: the claim holds in every execution graph\n",
    );
    io::write_all(
        STDOUT,
        b"  refuted, with a word: a graph meets the assumptions and breaks the claim\n",
    );
    io::write_all(
        STDOUT,
        b"  passes proved, passes refuted: the sheet is evidence for that verdict\n",
    );
    io::write_all(
        STDOUT,
        b"  line, the first line that the graph breaks or 0, holds or breaks: its judgement; what breaks the claim follows\n",
    );
    io::write_all(
        STDOUT,
        b"  refusal, number, line, place: why there is no answer; standard error has it in words\n",
    );
    io::write_all(
        STDOUT,
        b"Nothing on standard output: the arguments do not fit, a file cannot be read, or there is no graph.\n",
    );
}

// Writes it all.
pub fn write_help() {
    calls();
    answers();
}
