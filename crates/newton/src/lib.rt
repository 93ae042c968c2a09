// Newton's identities, and what power sums tell of their members modulo a prime: mathematics, in specs/ and proofs/.
#![tactic(auto)]
