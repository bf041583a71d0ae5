// The final theorems, and the wrong controllers that refute weaker ones. No code, and nothing stands on it.
#![tactic(auto)]
