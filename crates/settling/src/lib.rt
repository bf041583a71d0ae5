// What holds of settling, cycle by cycle, proved of the definitions. No code; the laws are in proofs/.
#![tactic(auto)]
