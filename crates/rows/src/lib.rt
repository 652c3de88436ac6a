// Lists by their slots, and what every floor needs of them: definitions in specs/, laws in proofs/, rows
// by value (`copy`), and bytes written into a buffer (`put`).
#![tactic(auto)]

pub mod copy;
pub mod put;
