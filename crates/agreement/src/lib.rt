// Two of ours agree: what one association announces, a peer's accepts and checks, the first answers, and the address is ACTIVE. Definitions and laws, no code.
// Depends on round_trip, update and what they depend on.
#![tactic(auto)]
