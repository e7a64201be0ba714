// The numbers that a run is refused with: definitions and laws, no code.
#![tactic(auto)]
