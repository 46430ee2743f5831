// Definitions: the walk of document 01, the calls over it and what they promise, the session; and the cases that wrong definitions fail. Uses the definitions of `words` and `listing`; has no code.
#![tactic(auto)]
