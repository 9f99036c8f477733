// A window shorter than the delay, document 02 §5: both ends work as with W - 1 set as T. specs/ has the statement, proofs/ the theorem.
#![tactic(auto)]
