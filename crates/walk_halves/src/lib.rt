// Demand 3, "Two halves": halved listings, what is one grower's in a run, and the claim about two whole runs of the walk. Has no code.
#![tactic(auto)]
