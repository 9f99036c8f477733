// The two fields of the code: specs/ has the definitions, proofs/ the laws, which all crates above cite.
#![tactic(auto)]
