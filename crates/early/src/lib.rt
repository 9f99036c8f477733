// As early as it can be known, document 02 §6: any list of reports and look-ups mixed. specs/ has the lists and what holds of them,
// proofs/ the theorems.
#![tactic(auto)]
