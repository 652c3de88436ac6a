// What C calls: plain numbers and lent byte buffers in, one number back. Each function here asks a floor
// below and packs its answer; none has a `requires`. `limpet_c` exports them. Those of one shape differ in the
// floor that they ask: C needs each by its name.
#![tactic(auto)]

mod answer;
pub mod of_arrangements;
pub mod of_boards;
pub mod of_books;
pub mod of_looks;
pub mod of_ranks;
pub mod of_sizes;
pub mod of_stretches;
