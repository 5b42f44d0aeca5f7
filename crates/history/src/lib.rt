// Sequences of calls: definitions and laws over the calls of the crates below, the theorem over every sequence, and no code. Depends on update,
// clock, payload and what they depend on.
#![tactic(auto)]
