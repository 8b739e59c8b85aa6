#![tactic(auto)]
// Linear polynomials, their order and the limit: definitions in specs/, what they mean in proofs/. No code.
