// Theorems, and no code: each public call's promise allows one outcome. The statements are in specs/, their proofs in proofs/.
#![tactic(auto)]
