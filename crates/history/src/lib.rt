// Request 14's fact about histories of runs: definitions and theorems, no code.
#![tactic(auto)]
