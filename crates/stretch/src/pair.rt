// The pair count over a stretch. Of an arrangement, it keeps where the two modules stand and at which
// settings: a flip moves them by their slots alone. The flips come from the counters, so a step costs
// the same whatever n is.
ghost use Rattle.std.specs.Prelude.{◌≡◌, suc, ◌≤◌, ◌<◌, length};
ghost use Rattle.rows.specs.Row.{at};
ghost use Rattle.rows.specs.Search.{if_lt};
ghost use Rattle.sizes.specs.Sizes.{most_settings, most_slots};
ghost use Rattle.flip.specs.Flip.{raised, source};
ghost use Rattle.stretch.specs.Pair.{bad_pair, pair_verdict, pair_count};
ghost use Rattle.stretch.specs.Asked.{StretchAsked, Seated, SeatedAt, together};

use crate::Stretch;
use arrangement::lent::Arrangement;
use flip::raise;
use rank::start::Start;
use rows::copy::WIDE;
use sizes::permitted::Sizes;
use sizes::{Fault, Verdict, outside, refuse_if};

// Module v at setting c, and module w at setting e in the slot after it.
#[derive(Clone, Copy)]
pub struct Pair {
    pub v: usize,
    pub c: usize,
    pub w: usize,
    pub e: usize,
}

// Where a module stands: its slot, counted from 0, and its setting.
#[derive(Clone, Copy)]
pub struct Seat {
    pub slot: usize,
    pub setting: u8,
}

// Whether a pair is not of two modules at permitted settings.
#[tactic(auto, using(std::proofs::lemmas::Bool::Decides::nat_tests), unfolding(crate::specs::Pair::bad_pair))]
fn is_bad(n: usize, k: usize, pair: Pair) -> bool
    ensures { result ≡ bad_pair n k pair.v pair.c pair.w pair.e }
{
    outside(1, n, pair.v) || outside(1, n, pair.w) || pair.v == pair.w || k <= pair.c || k <= pair.e
}

// The check of any stretch and any pair.
pub fn judge(stretch: Stretch, pair: Pair) -> Verdict
    ensures { result ≡ pair_verdict stretch.n stretch.k stretch.rank stretch.t pair.v pair.c pair.w pair.e }
{
    crate::judge(stretch)?;
    refuse_if(Fault::Pair, is_bad(stretch.n, stretch.k, pair))
}

// The seat of a module after a flip of length j.
#[tactic(auto, using(std::proofs::lemmas::Bool::Decides::nat_tests), unfolding(flip::specs::Flip::source, rows::specs::Search::if_lt))]
fn turn(k: usize, j: usize, seat: Seat) -> Seat
    requires { (seat.setting < k) × (k ≤ most_settings) }
    ensures { (result.slot ≡ source j seat.slot) × (result.setting ≡ if_lt seat.slot j (raised k seat.setting) seat.setting) }
{
    if j <= seat.slot {
        return seat;
    }
    Seat {
        slot: j - 1 - seat.slot,
        setting: raise(k, seat.setting),
    }
}

// The seat of module v in an arrangement. Where it stands in none of its slots, that is slot n, which a
// flip leaves where it is: so there is always a seat to turn, and no step asks whether there is one.
fn find(arrangement: Arrangement, v: usize) -> Seat
    ensures { Seated arrangement.entry.sizes.n arrangement.entry.sizes.k (at arrangement.entry.modules.now) (at arrangement.entry.settings.now) v result.slot result.setting }
{
    let Arrangement {
        sizes,
        modules,
        settings,
    } = arrangement;
    match modules.iter().position(|&module| usize::from(module) == v) {
        Some(slot) => Seat {
            slot,
            setting: settings[slot],
        },
        None => Seat {
            slot: sizes.n,
            setting: 0,
        },
    }
}

// The seat of module v in the arrangement of a rank, which is written into two rows of n bytes.
fn find_at(start: Start, v: usize, modules: &mut [u8], settings: &mut [u8]) -> Seat
    requires { (length modules.old ≡ start.sizes.n) × (length settings.old ≡ start.sizes.n) }
    ensures { SeatedAt start.sizes.n start.sizes.k start.rank v result.slot result.setting }
{
    unrank::write(start, modules, settings);
    let sizes = start.sizes;
    let arrangement = Arrangement {
        sizes,
        modules,
        settings,
    };
    find(arrangement, v)
}

// The same, with rows of its own.
fn seat_of(start: Start, v: usize) -> Seat
    ensures { SeatedAt start.sizes.n start.sizes.k start.rank v result.slot result.setting }
{
    let n = start.sizes.n;
    let mut modules = [0u8; WIDE];
    let mut settings = [0u8; WIDE];
    find_at(start, v, &mut modules[..n], &mut settings[..n])
}

// Whether the second seat is the next slot after the first, at the settings of the pair.
#[tactic(auto, using(std::proofs::lemmas::Bool::Decides::nat_tests), unfolding(crate::specs::Asked::together))]
fn stand_together(n: usize, first: Seat, second: Seat, pair: Pair) -> bool
    requires { (first.slot ≤ n) × (n ≤ most_slots) }
    ensures { result ≡ together n first.slot first.setting second.slot second.setting pair.c pair.e }
{
    first.slot + 1 == second.slot
        && second.slot < n
        && usize::from(first.setting) == pair.c
        && usize::from(second.setting) == pair.e
}

// The pair count, with two buffers for a board.
fn count_by(stretch: Stretch, pair: Pair, counters: &mut [u8], pointers: &mut [u8]) -> u64
    requires asked { StretchAsked stretch.n stretch.k stretch.rank stretch.t }
    requires lengths { (length counters.old ≡ stretch.n) × (length pointers.old ≡ suc stretch.n) }
    ensures { (result ≡ pair_count stretch.n stretch.k stretch.rank stretch.t pair.v pair.c pair.w pair.e) × (result ≤ stretch.t) }
{
    let Stretch { n, k, rank, t } = stretch;
    let sizes = Sizes { n, k };
    let start = Start { sizes, rank };
    let mut first = seat_of(start, pair.v);
    let mut second = seat_of(start, pair.w);
    board::write::write(start, counters, pointers);
    let mut count = 0u64;
    for _ in 0..t {
        if stand_together(n, first, second, pair) {
            count += 1;
        }
        let stepped = step::step(n, k, counters, pointers);
        first = turn(k, stepped.flip, first);
        second = turn(k, stepped.flip, second);
    }
    count
}

// The pair count of a stretch and a pair that have been checked.
pub fn count(stretch: Stretch, pair: Pair) -> u64
    requires { StretchAsked stretch.n stretch.k stretch.rank stretch.t }
    ensures { (result ≡ pair_count stretch.n stretch.k stretch.rank stretch.t pair.v pair.c pair.w pair.e) × (result ≤ stretch.t) }
{
    let mut counters = [0u8; WIDE];
    let mut pointers = [0u8; WIDE];
    count_by(
        stretch,
        pair,
        &mut counters[..stretch.n],
        &mut pointers[..stretch.n + 1],
    )
}
