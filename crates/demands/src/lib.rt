// The demands of document 01 (01-scope.md) as theorems about the exported functions. The file of theorems to open first is proofs/Demands.antt.
// Has no code.
#![tactic(auto)]
