// Theorems, and no code: what every call gives and leaves fits the 32-bit numbers in which it is handed over to C. The proofs are in proofs/.
#![tactic(auto)]
