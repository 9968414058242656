// Verdicts: definitions and laws only. See specs/ and proofs/.
#![tactic(auto)]
