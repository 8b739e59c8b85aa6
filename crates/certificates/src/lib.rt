#![tactic(auto)]
// Certificates as bytes: definitions in specs/, what they mean in proofs/. No code.
