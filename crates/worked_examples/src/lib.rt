// Worked cases that take long to compute: specs/ has them as lists, proofs/ has their theorems. There is no code here.
#![tactic(auto)]
