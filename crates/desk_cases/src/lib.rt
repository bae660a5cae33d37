// The cases C1 to C12, proved from the definitions as one table, and two further rows that tell apart what these do not. (Document 01, "The
// desk's cases".) No code.
#![tactic(auto)]
