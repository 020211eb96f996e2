// Rounded sums of floats that are not negative: the key of a float is in specs/, the laws are in proofs/. There is no code here.
#![tactic(auto)]
