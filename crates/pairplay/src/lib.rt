// Playing a pair of recordings, document 02 §7: what it prints, and its steps. specs/ has the definitions, proofs/ the theorem that ties
// them.
#![tactic(auto)]
