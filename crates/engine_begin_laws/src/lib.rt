// Theorems: words that pass question 7, as a call finds them, and the rows filled in and the due writes made from them.
#![tactic(auto)]
