// The layout of our board: how the words of a table and of a machine are read. docs/LAYOUT.md has every word. Has no code.
#![tactic(auto)]
