// What C asks of stretches: the pair count.
ghost use Rattle.limpet.specs.Answer.{Returns};
ghost use Rattle.limpet.specs.Calls.{pair_returns};

use crate::answer::{pack_refusal, pack_value};
use stretch::Stretch;
use stretch::pair::Pair;

pub fn limpet_pair_count(
    n: usize,
    k: usize,
    rank: u64,
    t: u64,
    v: usize,
    c: usize,
    w: usize,
    e: usize,
) -> u64
    ensures { Returns (pair_returns n k rank t v c w e) result }
{
    let stretch = Stretch { n, k, rank, t };
    let pair = Pair { v, c, w, e };
    match stretch::pair::judge(stretch, pair) {
        Ok(()) => pack_value(stretch::pair::count(stretch, pair)),
        Err(refusal) => pack_refusal(refusal),
    }
}
