// Definitions and theorems only: the queue engine as a pure function on rows (one for each live routine's slot), proved equal to the walk. Has no code.
#![tactic(auto)]
