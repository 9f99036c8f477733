// The static library's calls as definitions, and demands 1 and 3 about them: specs/ has the statements, proofs/ the theorems.
#![tactic(auto)]
