// Cases p1 to p12 of document 01 as one table: definitions in specs/ and proofs, and no code. p8 to p12 are answers to calls on registers
// that calls have made, by the definitions of `reckoning`.
#![tactic(auto)]
