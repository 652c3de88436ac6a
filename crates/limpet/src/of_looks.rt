// What C asks of looking: the flip out of an arrangement, and the next arrangement.
ghost use Rattle.limpet.specs.Answer.{Returns, Leaves, own_value};
ghost use Rattle.look.specs.Look.{next_leaves};
ghost use Rattle.limpet.specs.Calls.{look_returns};

use crate::answer::{pack, pack_refusal, pack_value};
use arrangement::lent::Arrangement;

pub fn limpet_look(n: usize, k: usize, modules: &[u8], settings: &[u8]) -> u64
    ensures { Returns (look_returns n k modules.now settings.now) result }
{
    match Arrangement::new(n, k, modules, settings) {
        Ok(arrangement) => pack_value(look::look(arrangement) as u64),
        Err(refusal) => pack_refusal(refusal),
    }
}

pub fn limpet_next(n: usize, k: usize, modules: &mut [u8], settings: &mut [u8]) -> u64
    ensures { Leaves own_value (next_leaves n k modules.old settings.old) result modules.new settings.new }
{
    pack(look::next_lent(n, k, modules, settings))
}
