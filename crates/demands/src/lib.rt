// The headline theorems have no code: what the calls promise, in the words of the demands, stands in proofs/.
#![tactic(auto)]
