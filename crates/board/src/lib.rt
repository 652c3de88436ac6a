// The counter board: made from digits (`digits`), written from a rank (`write`), lent in two buffers
// (`lent`), and its whole reading (`read`).
#![tactic(auto)]

pub mod digits;
pub mod lent;
pub mod read;
pub mod write;
