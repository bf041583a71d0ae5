// What holds of the interrupt routines, proved of the definitions. No code; the theorems are in proofs/.
#![tactic(auto)]
