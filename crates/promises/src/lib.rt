#![tactic(auto)]
// What is promised of the loader, and where each promise is kept: statements in specs/, their proofs in proofs/. No code.
