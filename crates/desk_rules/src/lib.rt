// The rules of the desk program, as definitions, and what follows from them. There is no code here.
#![tactic(auto)]
