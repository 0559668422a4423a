// The mathematics of the code. There is no code here: specs/ has the definitions, proofs/ the laws.
#![tactic(auto)]
