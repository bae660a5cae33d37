// The second demand, about the search and the judge, and the circle of the calls: the judge confirms what a passing sheet says. (Document 01,
// "Words", "Standings" and "Sheet and graph bytes".) No code.
#![tactic(auto)]
