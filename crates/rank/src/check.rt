// The check of a rank, of any numbers; `start` holds what is let pass.
ghost use Rattle.std.specs.Prelude.{◌≡◌, ◌≤◌};
ghost use Rattle.order.specs.Check.{rank_verdict, start_verdict, lent_rank_verdict};

use crate::start::Start;
use sizes::permitted::Sizes;
use sizes::{Fault, Verdict, refuse_if};

// The check of any rank.
pub(crate) fn judge_rank(sizes: Sizes, rank: u64) -> Verdict
    ensures { result ≡ rank_verdict sizes.n sizes.k rank }
{
    refuse_if(Fault::Rank, sizes.total() <= rank)
}

// The check of any n and k and of any start rank.
pub fn judge_start(n: usize, k: usize, rank: u64) -> Verdict
    ensures { result ≡ start_verdict n k rank }
{
    Start::new(n, k, rank)?;
    Ok(())
}

// The check of any n and k, of any rank and of any two lent buffers, of which the second should have
// `more` bytes more than the first.
pub fn judge(n: usize, k: usize, rank: u64, first: &[u8], more: usize, second: &[u8]) -> Verdict
    requires { more ≤ 1 }
    ensures { result ≡ lent_rank_verdict n k rank first.now more second.now }
{
    arrangement::check::judge_buffers(n, k, first, more, second)?;
    judge_rank(Sizes { n, k }, rank)
}
