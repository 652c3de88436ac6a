// The round of arrangements, as it was published: definitions in specs/, theorems in proofs/. There is no code here.
#![tactic(auto)]
