// What holds of every reading of a recording, proved of the definitions. No code; the theorems are in proofs/.
#![tactic(auto)]
