// What one codeword can repair: definitions in specs/, theorems in proofs/. There is no code here.
#![tactic(auto)]
