// A start: sizes that are permitted, and a rank of as many slots.
ghost use Rattle.std.specs.Prelude.{◌≡◌, ◌<◌, IfOk};
ghost use Rattle.sizes.specs.Refusal.{checked};
ghost use Rattle.sizes.specs.Sizes.{weight};
ghost use Rattle.order.specs.Check.{start_verdict};

use crate::check;
use sizes::Refusal;
use sizes::permitted::Sizes;

#[derive(Clone, Copy, Debug, PartialEq, Eq)]
pub struct Start {
    pub sizes: Sizes,
    pub rank: u64,
    pub ghost below: { rank < weight sizes.n sizes.k },
}

impl Start {
    // The start of any n and k and of any rank.
    pub fn new(n: usize, k: usize, rank: u64) -> Result<Start, Refusal>
        ensures verdict { checked result ≡ start_verdict n k rank }
        ensures start { IfOk result (λ start. (start.sizes.n ≡ n) × (start.sizes.k ≡ k) × (start.rank ≡ rank)) }
    {
        let sizes = Sizes::new(n, k)?;
        check::judge_rank(sizes, rank)?;
        Ok(Start { sizes, rank })
    }
}
