// Theorems over the definitions of `host`, `uploads`, `requests` and `replies`, and no code: what a writer writes is read at the other end as what was
// meant. The statements are in specs/, their proofs in proofs/.
#![tactic(auto)]
