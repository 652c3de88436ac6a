// The rank of an arrangement: the last digit times its weight, and the rank of the slots before the
// last, renamed. The slots are renamed where they stand, in rows by value that are lent from call to
// call. The check of a rank is in `check`, and a rank that has been checked in `start`.
#![tactic(auto)]

pub mod check;
pub mod start;

ghost use Rattle.std.specs.Prelude.{◌≡◌, suc, ◌+◌, ◌*◌, ◌≤◌, ◌<◌};
ghost use Rattle.rows.specs.Row.{at, row};
ghost use Rattle.rows.specs.Search.{if_lt};
ghost use Rattle.sizes.specs.Sizes.{weight as weight_of, most_slots, most_settings};
ghost use Rattle.rows.specs.Copy.{wide};
ghost use Rattle.order.specs.Rank.{lowered_by, renamed_module, renamed_setting, prefix_modules, prefix_settings, last_digit_lem, rank};
ghost use Rattle.order.specs.Asked.{RenameAsked, PutAsked, RankAsked};

use arrangement::lent::Arrangement;
use rows::copy;
use rows::copy::WIDE;

// A rank, and the number of ranks of as many slots.
#[derive(Clone, Copy)]
pub struct Ranked {
    pub rank: u64,
    pub weight: u64,
}

// A setting lowered by d: a comparison does what a remainder would. Here and below single numbers are bounded,
// which asks less than `Sizes` would.
fn lower(k: u8, setting: u8, d: u8) -> u8
    requires { (setting < k) × (d ≤ k) × (k ≤ most_settings) }
    ensures { result ≡ lowered_by k setting d }
{
    if setting < d {
        setting + k - d
    } else {
        setting - d
    }
}

// Module w renamed, with v:c in the last of n slots: v and c are two numbers of each formula, as n and k are.
fn rename_module(n: u8, v: u8, w: u8) -> u8
    requires { (n ≤ most_slots) × (v ≤ n) × (w ≤ most_slots) }
    ensures { result ≡ renamed_module n v w }
{
    if v < w { w - v } else { n - v + w }
}

// By how much the setting of module w is lowered.
fn down(v: u8, c: u8, w: u8) -> u8
    requires { c < most_settings }
    ensures { result ≡ if_lt v w (suc c) c }
{
    if v < w { c + 1 } else { c }
}

// The setting of module w renamed.
fn rename_setting(k: u8, v: u8, c: u8, w: u8, setting: u8) -> u8
    requires { (setting < k) × (c < k) × (k ≤ most_settings) }
    ensures { result ≡ renamed_setting k v c w setting }
{
    lower(k, setting, down(v, c, w))
}

// Renames the first m of m + 1 slots. What stands behind them is renamed too, and not looked at
// again: a loop over all places is the faster one.
fn rename(m: usize, k: usize, modules: &mut [u8; WIDE], settings: &mut [u8; WIDE])
    requires { RenameAsked m k modules.old settings.old }
    ensures modules_after { modules.new ≡ row (prefix_modules m (at modules.old)) wide }
    ensures settings_after { settings.new ≡ row (prefix_settings m k (at modules.old) (at settings.old)) wide }
{
    let n = (m + 1) as u8;
    let most = k as u8;
    let v = modules[m];
    let c = settings[m];
    for i in 0..WIDE {
        let w = modules[i];
        modules[i] = rename_module(n, v, w);
        settings[i] = rename_setting(most, v, c, w, settings[i]);
    }
}

fn last_digit(n: usize, v: u8, c: u8) -> u64
    requires { (n ≤ most_slots) × (v ≤ n) × (c ≤ most_settings) }
    ensures { result ≡ last_digit_lem n v c }
{
    (usize::from(c) * n + (n - usize::from(v))) as u64
}

// The rank of n slots, from v:c in the last and the rank and the weight of the others, renamed.
fn put_last(n: usize, k: usize, v: u8, c: u8, others: Ranked) -> Ranked
    requires { PutAsked n k v c others.rank others.weight }
    ensures { (result.rank ≡ last_digit_lem n v c * others.weight + others.rank) × (result.weight ≡ weight_of n k) }
{
    let digit = last_digit(n, v, c);
    Ranked {
        rank: digit * others.weight + others.rank,
        weight: ((k * n) as u64) * others.weight,
    }
}

// The rank of the first n slots, which are renamed on the way: so the rows are no arrangement that a type
// could hold.
fn rank_slots(n: usize, k: usize, modules: &mut [u8; WIDE], settings: &mut [u8; WIDE]) -> Ranked
    requires { RankAsked n k modules.old settings.old }
    ensures { (result.rank ≡ rank n k (at modules.old) (at settings.old)) × (result.weight ≡ weight_of n k) }
{
    let m = n - 1;
    let v = modules[m];
    let c = settings[m];
    if n == 1 {
        return Ranked {
            rank: u64::from(c),
            weight: k as u64,
        };
    }
    rename(m, k, modules, settings);
    let others = rank_slots(m, k, modules, settings);
    put_last(n, k, v, c, others)
}

// The rank of an arrangement.
pub fn rank(arrangement: Arrangement) -> u64
    ensures { result ≡ rank arrangement.entry.sizes.n arrangement.entry.sizes.k (at arrangement.entry.modules.now) (at arrangement.entry.settings.now) }
{
    let sizes = arrangement.sizes;
    let mut modules = copy::load(arrangement.modules);
    let mut settings = copy::load(arrangement.settings);
    let ranked = rank_slots(sizes.n, sizes.k, &mut modules, &mut settings);
    ranked.rank
}
