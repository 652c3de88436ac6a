// The flip by looking, and the next arrangement. It looks from slot to slot and stops where the slots
// stop falling, so it costs as many slots as the flip is long.
#![tactic(auto)]

ghost use Rattle.std.specs.Prelude.{◌≡◌, ◌≤◌, length};
ghost use Rattle.rows.specs.Row.{at, row};
ghost use Rattle.rows.specs.Search.{if_lt};
ghost use Rattle.sizes.specs.Outcome.{Does};
ghost use Rattle.sizes.specs.Sizes.{most_slots};
ghost use Rattle.flip.specs.Flip.{flipped_modules, flipped_settings};
ghost use Rattle.arrangement.specs.Arrangement.{Valid};
ghost use Rattle.look.specs.Look.{offset, look, next_leaves};

use arrangement::lent::Arrangement;
use sizes::Refusal;
use sizes::permitted::Sizes;

// How far down from module a the module v is.
fn offset(n: usize, a: usize, v: usize) -> usize
    requires { (n ≤ most_slots) × (a ≤ n) × (v ≤ n) }
    ensures { result ≡ offset n a v }
{
    if a < v { n + a - v } else { a - v }
}

// The setting that goes with module v, where module a in front has a setting that is given as it is
// and raised.
fn expected(a: usize, setting: u8, raised: u8, v: usize) -> u8
    ensures { result ≡ if_lt a v raised setting }
{
    if a < v { raised } else { setting }
}

// The length of the flip.
pub fn look(arrangement: Arrangement) -> usize
    ensures { result ≡ look arrangement.entry.sizes.n arrangement.entry.sizes.k (at arrangement.entry.modules.now) (at arrangement.entry.settings.now) }
{
    let Sizes { n, k } = arrangement.sizes;
    let modules = arrangement.modules;
    let settings = arrangement.settings;
    let front = usize::from(modules[0]);
    let setting = settings[0];
    let raised = flip::raise(k, setting);
    let mut reached = 0;
    for next in 1..n {
        let module = usize::from(modules[next]);
        if settings[next] != expected(front, setting, raised, module) {
            return next;
        }
        let further = offset(n, front, module);
        if further <= reached {
            return next;
        }
        reached = further;
    }
    n
}

// Looks and makes the flip, and answers its length.
pub fn next(sizes: Sizes, modules: &mut [u8], settings: &mut [u8]) -> usize
    requires lengths { (length modules.old ≡ sizes.n) × (length settings.old ≡ sizes.n) }
    requires valid { Valid sizes.n sizes.k (at modules.old) (at settings.old) }
    ensures value { result ≡ look sizes.n sizes.k (at modules.old) (at settings.old) }
    ensures modules_after { modules.new ≡ row (flipped_modules result (at modules.old)) sizes.n }
    ensures settings_after { settings.new ≡ row (flipped_settings sizes.k result (at settings.old)) sizes.n }
{
    let j = look(Arrangement {
        sizes,
        modules,
        settings,
    });
    flip::flip(sizes.k, j, modules, settings);
    j
}

// The next of any arrangement in any two lent buffers, and the length of the flip.
pub fn next_lent(
    n: usize,
    k: usize,
    modules: &mut [u8],
    settings: &mut [u8],
) -> Result<usize, Refusal>
    ensures { Does (next_leaves n k modules.old settings.old) result modules.new settings.new }
{
    arrangement::check::judge(n, k, modules, settings)?;
    Ok(next(Sizes { n, k }, modules, settings))
}
