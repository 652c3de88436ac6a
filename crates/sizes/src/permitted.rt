// Sizes that are permitted: n and k that the check lets pass.
ghost use Rattle.std.specs.Prelude.{◌≡◌, IfOk};
ghost use Rattle.sizes.specs.Refusal.{checked};
ghost use Rattle.sizes.specs.Sizes.{weight, sizes_verdict, Permitted};

use crate::{Refusal, judge};

#[derive(Clone, Copy, Debug, PartialEq, Eq)]
pub struct Sizes {
    pub n: usize,
    pub k: usize,
    pub ghost permitted: { Permitted n k },
}

impl Sizes {
    // The sizes of any n and k.
    pub fn new(n: usize, k: usize) -> Result<Sizes, Refusal>
        ensures verdict { checked result ≡ sizes_verdict n k }
        ensures sizes { IfOk result (λ sizes. (sizes.n ≡ n) × (sizes.k ≡ k)) }
    {
        judge(n, k)?;
        Ok(Sizes { n, k })
    }

    // T, by one more place at a time: no product on the way is above the last. No `From` leads from usize
    // to u64 or back, nor to a byte: so `as`, here and elsewhere, where it is proved to lose nothing.
    pub fn total(self) -> u64
        ensures { result ≡ weight self.n self.k }
    {
        let mut t: u64 = 1;
        for i in 0..self.n {
            t *= (self.k * (i + 1)) as u64;
        }
        t
    }
}
