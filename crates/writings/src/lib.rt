// What holds of every written recording, proved of the definitions. No code; the theorems are in proofs/.
#![tactic(auto)]
