// The filled reading has no code of its own: what is said of it stands in specs/, and is proved in proofs/.
#![tactic(auto)]
