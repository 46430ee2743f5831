// More cases of the walk, the calls and the session, which no must-fail edit of `walk` needs: apart, so that each such edit is refused
// quickly. And two laws: a session ends, the order of the questions. Uses `walk` and what it uses; has no code.
#![tactic(auto)]
