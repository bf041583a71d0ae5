// What commands do to a sound state, proved of the definitions, for the crates above. No code.
#![tactic(auto)]
