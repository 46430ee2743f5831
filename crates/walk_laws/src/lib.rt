// Theorems about the walk that show its definitions to be sound and that later proofs use. Uses `walk` and what it uses; has no code.
#![tactic(auto)]
