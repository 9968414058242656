// The ground floor: laws about whole numbers and machine words, in proofs/. There is no code here.
#![tactic(auto)]
