// Cases p1 to p12 of document 01 as one table, and its example of the runner: definitions in specs/ and proofs, and no code. p8 to p12 are
// answers to calls on registers that calls have made, computed by `expected` of the crate of that name. It stands beside `proved_cases`,
// whose place it is to take.
#![tactic(auto)]
