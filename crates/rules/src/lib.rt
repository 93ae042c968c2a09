// The requirements as definitions, in specs/, and what is proved of them, in proofs/.
#![tactic(auto)]
