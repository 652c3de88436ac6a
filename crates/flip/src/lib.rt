// One flip of an arrangement: the first j slots turned round, and their settings raised by one. Its rows
// are lent to be written in, so they stand beside n, k and j, and no type holds them.
#![tactic(auto)]

ghost use Rattle.std.specs.Prelude.{◌≡◌, ◌≤◌, ◌<◌, length};
ghost use Rattle.rows.specs.Row.{at, row, front};
ghost use Rattle.sizes.specs.Outcome.{Does};
ghost use Rattle.sizes.specs.Sizes.{most_settings};
ghost use Rattle.rows.specs.Copy.{blank};
ghost use Rattle.flip.specs.Flip.{raised, flipped_modules, flipped_settings, flip_length_verdict, flip_verdict, flip_leaves, Flippable};

use arrangement::check;
use rows::copy;
use rows::copy::WIDE;
use sizes::{Fault, Verdict, outside, refuse_if};

// The check of any length of a flip of n slots.
pub fn judge_length(n: usize, j: usize) -> Verdict
    ensures { result ≡ flip_length_verdict n j }
{
    refuse_if(Fault::Flip, outside(1, n, j))
}

// The check of any n and k, of an arrangement in any two lent buffers and of any length of a flip.
pub fn judge(n: usize, k: usize, j: usize, modules: &[u8], settings: &[u8]) -> Verdict
    ensures { result ≡ flip_verdict n k j modules.now settings.now }
{
    check::judge(n, k, modules, settings)?;
    judge_length(n, j)
}

// A setting raised by one: a comparison does what a remainder would. It bounds k alone, which asks less than
// `Sizes` would.
pub fn raise(k: usize, setting: u8) -> u8
    requires { (setting < k) × (k ≤ most_settings) }
    ensures { result ≡ raised k setting }
{
    let up = setting + 1;
    if usize::from(up) == k { 0 } else { up }
}

// A turned copy of the first j slots, and 0 behind them.
#[derive(Clone, Copy)]
struct Turned {
    modules: [u8; WIDE],
    settings: [u8; WIDE],
}

fn turn(k: usize, j: usize, modules: &[u8], settings: &[u8]) -> Turned
    requires { Flippable k j modules.now settings.now }
    ensures modules_value { result.modules ≡ front (flipped_modules j (at modules.now)) j blank }
    ensures settings_value { result.settings ≡ front (flipped_settings k j (at settings.now)) j blank }
{
    let mut turned_modules = [0u8; WIDE];
    let mut turned_settings = [0u8; WIDE];
    for i in 0..j {
        let from = j - 1 - i;
        turned_modules[i] = modules[from];
        turned_settings[i] = raise(k, settings[from]);
    }
    Turned {
        modules: turned_modules,
        settings: turned_settings,
    }
}

// The flip itself, of an arrangement that has been checked.
pub fn flip(k: usize, j: usize, modules: &mut [u8], settings: &mut [u8])
    requires { Flippable k j modules.old settings.old }
    ensures modules_after { modules.new ≡ row (flipped_modules j (at modules.old)) (length modules.old) }
    ensures settings_after { settings.new ≡ row (flipped_settings k j (at settings.old)) (length settings.old) }
{
    let turned = turn(k, j, modules, settings);
    copy::store(j, turned.modules, modules);
    copy::store(j, turned.settings, settings);
}

// The flip of any arrangement in any two lent buffers.
pub fn flip_lent(n: usize, k: usize, j: usize, modules: &mut [u8], settings: &mut [u8]) -> Verdict
    ensures { Does (flip_leaves n k j modules.old settings.old) result modules.new settings.new }
{
    judge(n, k, j, modules, settings)?;
    flip(k, j, modules, settings);
    Ok(())
}
