// Worked examples over all the calls: document 01's cases, an input for each refusal, and a run of calls. Definitions and what they compute to, no
// code. Depends on history and what it depends on.
#![tactic(auto)]
