#![tactic(auto)]
// Texts of rules as bytes: definitions in specs/, what they mean in proofs/. No code.
