// Demand 3 over every list of changing calls: definitions in specs/ and proofs, and no code. specs/Calls.antt says what a call is, what it
// is answered and what it leaves; specs/Demand3.antt has the claims, and proofs/Theorem.antt the theorem. `history` has the function that
// makes any of the calls, whose contract is these definitions.
#![tactic(auto)]
