// Document 01's proved figures: the list in specs/Figures.antt, its one claim in proofs/Figures.antt. There is no code here.
#![tactic(auto)]
