// What agreement and the answer are: the definitions in specs/, the theory of them in proofs/. No function.
#![tactic(auto)]
