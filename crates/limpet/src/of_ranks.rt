// What C asks of ranks: the rank of an arrangement, and the arrangement of a rank.
ghost use Rattle.limpet.specs.Answer.{Returns, Leaves, no_value};
ghost use Rattle.limpet.specs.Calls.{check_returns, rank_value_returns};
ghost use Rattle.unrank.specs.Unrank.{unrank_leaves};

use crate::answer::pack_verdict;
use crate::of_arrangements::limpet_check;
use arrangement::lent::Arrangement;

pub fn limpet_rank(n: usize, k: usize, modules: &[u8], settings: &[u8]) -> u64
    ensures { Returns (check_returns n k modules.now settings.now) result }
{
    limpet_check(n, k, modules, settings)
}

pub fn limpet_rank_value(n: usize, k: usize, modules: &[u8], settings: &[u8]) -> u64
    ensures { Returns (rank_value_returns n k modules.now settings.now) result }
{
    match Arrangement::new(n, k, modules, settings) {
        Ok(arrangement) => rank::rank(arrangement),
        Err(_) => 0,
    }
}

pub fn limpet_unrank(n: usize, k: usize, rank: u64, modules: &mut [u8], settings: &mut [u8]) -> u64
    ensures { Leaves no_value (unrank_leaves n k rank modules.old settings.old) result modules.new settings.new }
{
    pack_verdict(unrank::write_lent(n, k, rank, modules, settings))
}
