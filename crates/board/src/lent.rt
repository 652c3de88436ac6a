// A board that is lent: two buffers that have the lengths of a board, of counters and of pointers. What
// stands in them is not looked at.
ghost use Rattle.std.specs.Prelude.{◌≡◌, suc, length, IfOk};
ghost use Rattle.sizes.specs.Refusal.{checked};
ghost use Rattle.arrangement.specs.Check.{buffers_verdict};

use arrangement::check::judge_buffers;
use sizes::Refusal;
use sizes::permitted::Sizes;

#[derive(Clone, Copy)]
pub struct Board<'a> {
    pub sizes: Sizes,
    pub counters: &'a [u8],
    pub pointers: &'a [u8],
    pub ghost counters_long: { length counters.now ≡ sizes.n },
    pub ghost pointers_long: { length pointers.now ≡ suc sizes.n },
}

impl<'a> Board<'a> {
    // The board of any n and k, in any two lent buffers.
    pub fn new(
        n: usize,
        k: usize,
        counters: &'a [u8],
        pointers: &'a [u8],
    ) -> Result<Board<'a>, Refusal>
        ensures verdict { checked result ≡ buffers_verdict n k counters.now 1 pointers.now }
        ensures sizes { IfOk result (λ made. (made.sizes.n ≡ n) × (made.sizes.k ≡ k)) }
        ensures rows { IfOk result (λ made. (made.counters.now ≡ counters.now) × (made.pointers.now ≡ pointers.now)) }
    {
        judge_buffers(n, k, counters, 1, pointers)?;
        Ok(Board {
            sizes: Sizes { n, k },
            counters,
            pointers,
        })
    }
}
