// Round trips: an announcement that we wrote is read as it was meant, and an announcement that we read is written as it stood. Definitions and laws, no code.
// Depends on announcement, packet and what they depend on.
#![tactic(auto)]
