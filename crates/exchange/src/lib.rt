// Theorems over the definitions of `controller`, `host` and `uploads`, and no code: what the request call leaves in the reply buffer, the host reads as
// it was meant, and the whole way of an upload. The statements are in specs/, their proofs in proofs/.
#![tactic(auto)]
