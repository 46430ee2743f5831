// The demands on whole lists of calls, from what the calls promise: demand 2 over any session. Uses `walk` and `walk_laws`; has no code.
#![tactic(auto)]
