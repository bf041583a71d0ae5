// Laws over any list, order, count or walk. No code; the definitions are in specs/, the laws in proofs/.
#![tactic(auto)]
