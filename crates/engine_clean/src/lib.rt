// What words a machine's blocks may hold besides what their rows tell: none. Kept by every change of an instant, so that the words left at its end pass question 7. Uses `blocks`; has no code.
#![tactic(auto)]
