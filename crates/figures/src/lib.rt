// The figures of document 01: a table of them in specs/, and in proofs/ the one theorem across it. There is no code here.
#![tactic(auto)]
