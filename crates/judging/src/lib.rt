#![tactic(auto)]
// The whole check and what an accepted certificate shows: definitions in specs/, what they mean in proofs/. No code.
