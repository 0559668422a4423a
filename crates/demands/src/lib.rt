// The user's three demands as theorems. There is no code here: proofs/Demands.antt has them, about any results that the entries' contracts allow.
#![tactic(auto)]
