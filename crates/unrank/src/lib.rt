// The arrangement of a rank: the digits are taken off from the lowest up, and with each the slots
// before it have their renaming undone, where they stand.
#![tactic(auto)]

ghost use Rattle.std.specs.Prelude.{◌≡◌, suc, ◌+◌, ◌/◌, ◌≤◌, ◌<◌, length, set};
ghost use Rattle.rows.specs.Row.{at, row};
ghost use Rattle.rows.specs.Search.{if_lt};
ghost use Rattle.sizes.specs.Outcome.{Does};
ghost use Rattle.sizes.specs.Sizes.{weight, most_slots, most_settings};
ghost use Rattle.rows.specs.Copy.{wide};
ghost use Rattle.order.specs.Rank.{raised_by, restored_module, restored_setting, unrank_modules, unrank_settings};
ghost use Rattle.order.specs.Asked.{RestoreAsked, UnrankAsked, Unranked};
ghost use Rattle.unrank.specs.Unrank.{unrank_leaves};

use rank::start::Start;
use rows::copy;
use rows::copy::WIDE;
use sizes::Verdict;
use sizes::permitted::Sizes;

// A setting raised by d: a comparison does what a remainder would. For d = 1 it is `flip::raise`, which is
// a subtraction shorter. Here and below single numbers are bounded, which asks less than `Sizes` would.
fn raise(k: u8, setting: u8, d: u8) -> u8
    requires { (setting < k) × (d ≤ k) × (k ≤ most_settings) }
    ensures { result ≡ raised_by k setting d }
{
    let up = setting + d;
    if up < k { up } else { up - k }
}

// The renaming of module x undone, with v:c in the last of n slots: v and c are two numbers of each formula,
// as n and k are.
fn restore_module(n: u8, v: u8, x: u8) -> u8
    requires { (n ≤ most_slots) × (v ≤ n) × (x ≤ most_slots) }
    ensures { result ≡ restored_module n v x }
{
    let up = v + x;
    if n < up { up - n } else { up }
}

// By how much the setting of module x was lowered.
fn up_again(n: u8, v: u8, c: u8, x: u8) -> u8
    requires { (v ≤ most_slots) × (x ≤ most_slots) × (c < most_settings) }
    ensures { result ≡ if_lt n (v + x) c (suc c) }
{
    if n < v + x { c } else { c + 1 }
}

// The setting of module x as it was.
fn restore_setting(n: u8, k: u8, v: u8, c: u8, x: u8, setting: u8) -> u8
    requires { (n ≤ most_slots) × (v ≤ n) × (x ≤ most_slots) × (setting < k) × (c < k) × (k ≤ most_settings) }
    ensures { result ≡ restored_setting n k v c x setting }
{
    raise(k, setting, up_again(n, v, c, x))
}

// Undoes the renaming of the first m slots, and puts v:c in the last of m + 1. What stands behind is
// restored too, and is written over later: a loop over all places is the faster one.
fn restore(m: usize, k: usize, v: u8, c: u8, modules: &mut [u8; WIDE], settings: &mut [u8; WIDE])
    requires { RestoreAsked m k v c modules.old settings.old }
    ensures modules_after { modules.new ≡ set (row (λ i. restored_module (suc m) v (at modules.old i)) wide) m v }
    ensures settings_after { settings.new ≡ set (row (λ i. restored_setting (suc m) k v c (at modules.old i) (at settings.old i)) wide) m c }
{
    let n = (m + 1) as u8;
    let most = k as u8;
    for i in 0..WIDE {
        let x = modules[i];
        modules[i] = restore_module(n, v, x);
        settings[i] = restore_setting(n, most, v, c, x, settings[i]);
    }
    modules[m] = v;
    settings[m] = c;
}

// The slots of the first n digits of a rank, and the rank without them. What the rows hold of an arrangement
// grows from call to call, so no type holds it.
fn unrank_slots(
    n: usize,
    k: usize,
    rank: u64,
    modules: &mut [u8; WIDE],
    settings: &mut [u8; WIDE],
) -> u64
    requires { UnrankAsked n k modules.old settings.old }
    ensures value { result ≡ rank / weight n k }
    ensures unranked { Unranked n k rank modules.new settings.new }
{
    if n == 0 {
        return rank;
    }
    let m = n - 1;
    let above = unrank_slots(m, k, rank, modules, settings);
    let base = (k * n) as u64;
    let digit = (above % base) as usize;
    restore(
        m,
        k,
        (n - digit % n) as u8,
        (digit / n) as u8,
        modules,
        settings,
    );
    above / base
}

// Writes the arrangement of a rank that has been checked into two rows of n bytes.
pub fn write(start: Start, modules: &mut [u8], settings: &mut [u8])
    requires { (length modules.old ≡ start.sizes.n) × (length settings.old ≡ start.sizes.n) }
    ensures modules_after { modules.new ≡ row (unrank_modules start.sizes.n start.sizes.k start.rank) start.sizes.n }
    ensures settings_after { settings.new ≡ row (unrank_settings start.sizes.n start.sizes.k start.rank) start.sizes.n }
{
    let n = start.sizes.n;
    let mut new_modules = [0u8; WIDE];
    let mut new_settings = [0u8; WIDE];
    unrank_slots(
        n,
        start.sizes.k,
        start.rank,
        &mut new_modules,
        &mut new_settings,
    );
    copy::store(n, new_modules, modules);
    copy::store(n, new_settings, settings);
}

// Writes the arrangement of any rank into any two lent buffers. `board::write::write_lent` has the shape: the two
// differ in what they write, and a closure for that would be no shorter.
pub fn write_lent(n: usize, k: usize, rank: u64, modules: &mut [u8], settings: &mut [u8]) -> Verdict
    ensures { Does (unrank_leaves n k rank modules.old settings.old) result modules.new settings.new }
{
    rank::check::judge(n, k, rank, modules, 0, settings)?;
    let sizes = Sizes { n, k };
    write(Start { sizes, rank }, modules, settings);
    Ok(())
}
