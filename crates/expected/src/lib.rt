// What each call should be answered by the fields of the call and of those before it, with no register looked at, and demand 3 of the
// answers that were given: definitions in specs/ and proofs, and no code. specs/Calls.antt says what a call is, what it is answered and
// what it leaves; specs/Reckoning.antt what the calls' fields and answers come to; specs/Expected.antt what each call should be answered
// by that alone; specs/Demand3.antt has the claims, and proofs/Theorem.antt the theorem. It stands beside `reckoning`, whose place it is to
// take: its theorem is the stronger one, and no function's contract names it yet.
#![tactic(auto)]
