// The lines of a replay: the line of a call and its answer, and the lines of an association's state. Depends on text, trace, sections and the crates of
// the answers' types. Definitions and laws; the code that meets them is the program replay's.
#![tactic(auto)]
