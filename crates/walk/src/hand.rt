// The walk in hand: a record by value of n, k and an arrangement. It has 20 places for modules and 20
// for settings; those behind n are never looked at, and stay. A refused walk comes back as it was
// given.
ghost use Rattle.std.specs.Prelude.{◌≡◌, ◌≤◌, IfOk, take};
ghost use Rattle.sizes.specs.Refusal.{checked};
ghost use Rattle.walk.specs.Hand.{walk_verdict, walk_flip_verdict, walk_of_lem, no_walk_lem, flipped_walk, makes, tells_rank, tells_flip, flips, moves_on};
ghost use Rattle.walk.specs.Asked.{PlacesAsked};

use arrangement::check;
use arrangement::lent::Arrangement;
use rank::start::Start;
use sizes::permitted::Sizes;
use sizes::{Refusal, Verdict};

pub const PLACES: usize = sizes::MOST_SLOTS;

#[derive(Clone, Copy, Debug, PartialEq, Eq)]
pub struct Walk {
    pub n: usize,
    pub k: usize,
    pub modules: [u8; PLACES],
    pub settings: [u8; PLACES],
}

// A refusal, and the walk that is in hand all the same: the one that was given, or 0 for every number
// where none was.
#[derive(Clone, Copy, Debug, PartialEq, Eq)]
pub struct Kept {
    pub refusal: Refusal,
    pub walk: Walk,
}

// The flip that was made, and the walk after it.
#[derive(Clone, Copy, Debug, PartialEq, Eq)]
pub struct Moved {
    pub flip: usize,
    pub walk: Walk,
}

// The walk with 0 for every number.
fn no_walk() -> Walk
    ensures { result ≡ no_walk_lem }
{
    Walk {
        n: 0,
        k: 0,
        modules: [0; PLACES],
        settings: [0; PLACES],
    }
}

// The walk of a rank that has been checked.
fn walk_of(start: Start) -> Walk
    ensures { result ≡ walk_of_lem start.sizes.n start.sizes.k start.rank }
{
    let Sizes { n, k } = start.sizes;
    let mut modules = [0u8; PLACES];
    let mut settings = [0u8; PLACES];
    unrank::write(start, &mut modules[..n], &mut settings[..n]);
    Walk {
        n,
        k,
        modules,
        settings,
    }
}

// The walk of any n, k and rank. What a closure under `map_err` gives has no name in a proof, so this and the
// calls that answer a walk are a `match`.
pub fn make(n: usize, k: usize, rank: u64) -> Result<Walk, Kept>
    ensures { result ≡ makes n k rank }
{
    match Start::new(n, k, rank) {
        Ok(start) => Ok(walk_of(start)),
        Err(refusal) => Err(Kept {
            refusal,
            walk: no_walk(),
        }),
    }
}

impl Walk {
    // The arrangement in its first n places.
    fn arrangement(&self) -> Result<Arrangement<'_>, Refusal>
        ensures verdict { checked result ≡ walk_verdict self.now }
        ensures sizes { IfOk result (λ made. (made.sizes.n ≡ self.now.n) × (made.sizes.k ≡ self.now.k)) }
        ensures rows { IfOk result (λ made. (made.modules.now ≡ take self.now.n self.now.modules) × (made.settings.now ≡ take self.now.n self.now.settings)) }
    {
        let sizes = Sizes::new(self.n, self.k)?;
        let modules = &self.modules[..sizes.n];
        let settings = &self.settings[..sizes.n];
        check::judge_slots(sizes.n, sizes.k, modules, settings)?;
        Ok(Arrangement {
            sizes,
            modules,
            settings,
        })
    }

    // Its check.
    pub fn judge(self) -> Verdict
        ensures { result ≡ walk_verdict self }
    {
        self.arrangement()?;
        Ok(())
    }

    // Its rank.
    pub fn rank(self) -> Result<u64, Refusal>
        ensures { result ≡ tells_rank self }
    {
        let arrangement = self.arrangement()?;
        Ok(rank::rank(arrangement))
    }

    // The flip out of it, by looking. `rank` has the shape: a closure would be longer than the call that differs.
    pub fn look(self) -> Result<usize, Refusal>
        ensures { result ≡ tells_flip self }
    {
        let arrangement = self.arrangement()?;
        Ok(look::look(arrangement))
    }

    // It flipped by j, where both have been checked.
    fn flipped(self, j: usize) -> Walk
        requires { PlacesAsked self × (j ≤ self.n) }
        ensures { result ≡ flipped_walk j self }
    {
        let n = self.n;
        let mut modules = self.modules;
        let mut settings = self.settings;
        flip::flip(self.k, j, &mut modules[..n], &mut settings[..n]);
        Walk {
            modules,
            settings,
            ..self
        }
    }

    // The check of it and of any length of a flip.
    pub fn judge_flip(self, j: usize) -> Verdict
        ensures { result ≡ walk_flip_verdict self j }
    {
        self.judge()?;
        flip::judge_length(self.n, j)
    }

    // It flipped by a free length.
    pub fn flip(self, j: usize) -> Result<Walk, Kept>
        ensures { result ≡ flips self j }
    {
        match self.judge_flip(j) {
            Ok(()) => Ok(self.flipped(j)),
            Err(refusal) => Err(Kept {
                refusal,
                walk: self,
            }),
        }
    }

    // It moved to the next arrangement.
    pub fn next(self) -> Result<Moved, Kept>
        ensures { result ≡ moves_on self }
    {
        match self.arrangement() {
            Ok(arrangement) => {
                let j = look::look(arrangement);
                Ok(Moved {
                    flip: j,
                    walk: self.flipped(j),
                })
            }
            Err(refusal) => Err(Kept {
                refusal,
                walk: self,
            }),
        }
    }
}
