// The theory of collection has no code: its definitions stand in specs/, its laws in proofs/.
#![tactic(auto)]
