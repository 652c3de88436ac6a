// An arrangement in two lent rows, of modules by slot and of settings by slot, that has been checked.
ghost use Rattle.std.specs.Prelude.{◌≡◌, length, IfOk};
ghost use Rattle.rows.specs.Row.{at};
ghost use Rattle.sizes.specs.Refusal.{checked};
ghost use Rattle.arrangement.specs.Arrangement.{Valid};
ghost use Rattle.arrangement.specs.Check.{lent_verdict};

use crate::check;
use sizes::Refusal;
use sizes::permitted::Sizes;

#[derive(Clone, Copy)]
pub struct Arrangement<'a> {
    pub sizes: Sizes,
    pub modules: &'a [u8],
    pub settings: &'a [u8],
    pub ghost modules_long: { length modules.now ≡ sizes.n },
    pub ghost settings_long: { length settings.now ≡ sizes.n },
    pub ghost valid: { Valid sizes.n sizes.k (at modules.now) (at settings.now) },
}

impl<'a> Arrangement<'a> {
    // The arrangement of any n and k, in any two lent buffers.
    pub fn new(
        n: usize,
        k: usize,
        modules: &'a [u8],
        settings: &'a [u8],
    ) -> Result<Arrangement<'a>, Refusal>
        ensures verdict { checked result ≡ lent_verdict n k modules.now settings.now }
        ensures sizes { IfOk result (λ made. (made.sizes.n ≡ n) × (made.sizes.k ≡ k)) }
        ensures rows { IfOk result (λ made. (made.modules.now ≡ modules.now) × (made.settings.now ≡ settings.now)) }
    {
        check::judge(n, k, modules, settings)?;
        Ok(Arrangement {
            sizes: Sizes { n, k },
            modules,
            settings,
        })
    }
}
