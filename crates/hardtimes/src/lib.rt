// Hard deadlines: times at which every rule binds on its own. The definitions are in specs/, the theorems about them in proofs/. There is no code here.
#![tactic(auto)]
