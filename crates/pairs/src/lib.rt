#![tactic(auto)]
// Dependency pairs, arcs, the listing and the arc question: definitions in specs/, what they mean in proofs/. No code.
