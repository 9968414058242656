// Executions of an event graph: the definitions in specs/, the theorems about them in proofs/. There is no code here.
#![tactic(auto)]
