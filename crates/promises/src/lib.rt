// No code: the theorems that speak of several entries at once stand in proofs/.
#![tactic(auto)]
