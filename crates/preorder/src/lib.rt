// The theory of prebisimulations: definitions in specs/, proofs in proofs/. There is no code here.
#![tactic(auto)]
