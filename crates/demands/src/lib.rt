// Demands 1 to 3 of the calls: specs/ says what is found of written tables and of the configuration found, proofs/ has the theorems. There is no code here.
#![tactic(auto)]
