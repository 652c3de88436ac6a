// The sizes of a round: which n and k are permitted. Sizes that are, and T, the number of arrangements,
// are in `permitted`. Here too is what every check of every floor answers: nothing to refuse, or a
// refusal.
#![tactic(auto)]

pub mod permitted;

ghost use Rattle.std.specs.Prelude.{◌≡◌};
ghost use Rattle.rows.specs.Search.{outside as outside_lem};
ghost use Rattle.sizes.specs.Refusal.{fault_number, refused_if};
ghost use Rattle.sizes.specs.Sizes.{sizes_verdict};

// What is refused. Each has a number in the table of refusals.
#[derive(Clone, Copy, Debug, PartialEq, Eq)]
pub enum Fault {
    Slots,
    Settings,
    Total,
    Length,
    Module,
    Repeat,
    Setting,
    Rank,
    Flip,
    Board,
    Count,
    Pair,
    Contents,
    Format,
    Entry,
    End,
    Line,
    Asked,
}

impl Fault {
    // Its number.
    #[tactic(auto, unfolding(crate::specs::Refusal::fault_number))]
    pub fn number(self) -> u8
        ensures { result ≡ fault_number self }
    {
        match self {
            Fault::Slots => 1,
            Fault::Settings => 2,
            Fault::Total => 3,
            Fault::Length => 4,
            Fault::Module => 5,
            Fault::Repeat => 6,
            Fault::Setting => 7,
            Fault::Rank => 8,
            Fault::Flip => 9,
            Fault::Board => 10,
            Fault::Count => 11,
            Fault::Pair => 12,
            Fault::Contents => 13,
            Fault::Format => 14,
            Fault::Entry => 15,
            Fault::End => 16,
            Fault::Line => 17,
            Fault::Asked => 18,
        }
    }
}

// A refusal: what is refused, and its place, 0 where none is named.
#[derive(Clone, Copy, Debug, PartialEq, Eq)]
pub struct Refusal {
    pub fault: Fault,
    pub place: u8,
}

pub type Verdict = Result<(), Refusal>;

// A check with no place.
pub fn refuse_if(fault: Fault, is_there: bool) -> Verdict
    ensures { result ≡ refused_if fault is_there }
{
    if is_there {
        return Err(Refusal { fault, place: 0 });
    }
    Ok(())
}

pub const MOST_SLOTS: usize = 20;

pub const MOST_SETTINGS: usize = 8;

// By k: the largest n whose T is below 2^64. No product has to be worked out to refuse.
const LARGEST: [u8; 9] = [0, 20, 16, 14, 13, 13, 12, 12, 11];

// Whether a number is below `low` or above `high`.
pub fn outside(low: usize, high: usize, x: usize) -> bool
    ensures { result ≡ outside_lem low high x }
{
    x < low || high < x
}

// The check of n and k, for any two numbers.
pub fn judge(n: usize, k: usize) -> Verdict
    ensures { result ≡ sizes_verdict n k }
{
    refuse_if(Fault::Slots, outside(1, MOST_SLOTS, n))?;
    refuse_if(Fault::Settings, outside(1, MOST_SETTINGS, k))?;
    refuse_if(Fault::Total, usize::from(LARGEST[k]) < n)
}
