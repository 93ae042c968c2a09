// Primes and congruence: mathematics, in specs/ and proofs/.
#![tactic(auto)]
