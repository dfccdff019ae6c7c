// Strict Base64 as definitions and laws, and no code: the code is that of `decoder` and `encoder`. The definitions are in specs/, the laws in
// proofs/.
#![tactic(auto)]
