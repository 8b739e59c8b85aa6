#![tactic(auto)]
// Packs as bytes: definitions in specs/, what they mean in proofs/. No code.
