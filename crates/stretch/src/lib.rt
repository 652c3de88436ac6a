// A stretch and its check, and the pair count over one (`pair`).
#![tactic(auto)]

pub mod pair;

ghost use Rattle.std.specs.Prelude.{◌≡◌};
ghost use Rattle.stretch.specs.Stretch.{stretch_verdict};

use rank::check::judge_start;
use sizes::{Fault, Verdict, refuse_if};

pub const MOST_COUNTED: u64 = 65536;

// The t arrangements from a rank on, of n slots and k settings. It takes any numbers: `judge` says which
// of them are refused, and for what, so its fields have no clause. A stretch of a book has another limit of its
// count, and stands in `book`.
#[derive(Clone, Copy)]
pub struct Stretch {
    pub n: usize,
    pub k: usize,
    pub rank: u64,
    pub t: u64,
}

// The check of any stretch.
pub fn judge(stretch: Stretch) -> Verdict
    ensures { result ≡ stretch_verdict stretch.n stretch.k stretch.rank stretch.t }
{
    judge_start(stretch.n, stretch.k, stretch.rank)?;
    refuse_if(Fault::Count, MOST_COUNTED < stretch.t)
}
