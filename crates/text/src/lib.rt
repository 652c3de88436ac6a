// The output lines of the programs (`write`), in texts of fixed room.
#![tactic(auto)]

pub mod write;
