// What the pieces of a job are: the definitions in specs/, the theory of them in proofs/. No function.
#![tactic(auto)]
