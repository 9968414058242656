// A process graph unfolded in full, level by level: the definitions in specs/, the theorems about it in proofs/. There is no code here.
#![tactic(auto)]
