// An accepted pair of recordings, fed to a receiver slot by slot: no code, only definitions and theorems.
#![tactic(auto)]
