// What C asks of an arrangement, and one flip of it.
ghost use Rattle.limpet.specs.Answer.{Returns, Leaves, no_value};
ghost use Rattle.flip.specs.Flip.{flip_leaves};
ghost use Rattle.limpet.specs.Calls.{check_returns};

use crate::answer::pack_verdict;

pub fn limpet_check(n: usize, k: usize, modules: &[u8], settings: &[u8]) -> u64
    ensures { Returns (check_returns n k modules.now settings.now) result }
{
    pack_verdict(arrangement::check::judge(n, k, modules, settings))
}

pub fn limpet_flip(n: usize, k: usize, j: usize, modules: &mut [u8], settings: &mut [u8]) -> u64
    ensures { Leaves no_value (flip_leaves n k j modules.old settings.old) result modules.new settings.new }
{
    pack_verdict(flip::flip_lent(n, k, j, modules, settings))
}
