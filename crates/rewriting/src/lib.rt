#![tactic(auto)]
// Terms, rewriting and dependency pairs: definitions in specs/, the dependency pair theorem in proofs/. No code.
