// What the leaves are that every largest set holds: the definitions in specs/, the theory of them in proofs/. No function.
#![tactic(auto)]
