// Theorems, and no code: what a caller in C may rely on over a row of calls. The statements are in specs/, their proofs in proofs/.
#![tactic(auto)]
