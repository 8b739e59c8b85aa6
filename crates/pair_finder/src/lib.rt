#![tactic(auto)]
// Lists a pack's dependency pairs and answers the arc question, over a pack that was read.
pub mod arcs;
pub mod listing;
