// What C asks of the sizes of a round.
ghost use Rattle.limpet.specs.Answer.{Returns};
ghost use Rattle.limpet.specs.Calls.{round_returns, total_returns};

use crate::answer::pack_verdict;
use sizes::permitted::Sizes;

pub fn limpet_round(n: usize, k: usize) -> u64
    ensures { Returns (round_returns n k) result }
{
    pack_verdict(sizes::judge(n, k))
}

pub fn limpet_round_total(n: usize, k: usize) -> u64
    ensures { Returns (total_returns n k) result }
{
    match Sizes::new(n, k) {
        Ok(sizes) => sizes.total(),
        Err(_) => 0,
    }
}
