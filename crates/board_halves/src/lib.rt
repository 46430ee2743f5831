// Demand 3 on boards: said of the results that the calls gave and of the lists that they left. Has no code.
#![tactic(auto)]
