// Theorems about schedules: the edges of a span are its changes, each once; the last edge tells whether an input is open; text and schedule
// determine each other; when question 19 passes.
#![tactic(auto)]
