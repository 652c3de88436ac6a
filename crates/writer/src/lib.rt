// Books written: the stretches of four lent lists (`lists`), their check (`check`), and the bytes of their
// book (`write`).
#![tactic(auto)]

pub mod check;
pub mod lists;
pub mod write;
