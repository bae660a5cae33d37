// The first line that a judged graph breaks.
#![tactic(auto)]

ghost use Rattle.std.specs.Prelude.{◌≡◌};
ghost use Rattle.broken_lines.specs.BrokenLine.{broken_line};

use graph::Judged;
use refusals::Refusal;

// The first line that the graph breaks; one that is refused counts as breaking line 4,097.
pub fn broken_line(j: Result<Judged, Refusal>) -> usize
    ensures { result ≡ broken_line j }
{
    match j {
        Ok(Judged::Holds(line)) => line,
        Ok(Judged::BreaksAt(line, _event)) => line,
        Ok(Judged::BreaksFrom(line, _from, _to)) => line,
        Err(_) => 4097,
    }
}
