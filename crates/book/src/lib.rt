// Stretch books: the bytes of a format (`format`), and the check of any bytes as a book (`check`).
#![tactic(auto)]

pub mod check;
pub mod format;
