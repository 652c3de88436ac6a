// The walk in hand (`hand`).
#![tactic(auto)]

pub mod hand;
