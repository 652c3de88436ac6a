// The whole reading of a board. The digits are read off it; where their board is the one that was
// lent, they are those of its rank, and else it is no rank's board.
ghost use Rattle.std.specs.Prelude.{◌≡◌, suc, ◌-◌, ◌*◌, ◌≤◌};
ghost use Rattle.rows.specs.Row.{front};
ghost use Rattle.rows.specs.Search.{if_lt};
ghost use Rattle.sizes.specs.Sizes.{most_settings, most_slots};
ghost use Rattle.rows.specs.Copy.{blank};
ghost use Rattle.order.specs.Digits.{of_digits};
ghost use Rattle.board.specs.Board.{place};
ghost use Rattle.board.specs.Asked.{DigitsAsked};
ghost use Rattle.board.specs.Read.{Reads, digit_read};

use crate::digits;
use crate::lent::Board;
use rows::copy::WIDE;
use sizes::permitted::Sizes;
use sizes::{Fault, Refusal, refuse_if};

// Digit j, where the last run that was begun ends at `end`.
#[tactic(auto, using(std::proofs::lemmas::Bool::Decides::nat_tests), unfolding(rows::specs::Search::if_lt))]
fn read_digit(k: usize, j: usize, end: usize, counter: u8) -> u8
    requires { (1 ≤ k) × (k ≤ most_settings) × (1 ≤ j) × (j ≤ most_slots) }
    ensures { result ≡ if_lt j end (k * j - 1) (if_lt (k * j - 1) counter 0 counter) }
{
    let full = k * j - 1;
    if j < end {
        return full as u8;
    }
    if full < usize::from(counter) {
        return 0;
    }
    counter
}

// The digits 1 to n that a board says, and 0 behind them.
fn read_digits(board: Board) -> [u8; WIDE]
    ensures { result ≡ front (λ i. digit_read board.entry.sizes.k board.entry.counters.now board.entry.pointers.now (suc i)) board.entry.sizes.n blank }
{
    let mut read = [0u8; WIDE];
    let mut end = 0;
    for i in 0..board.sizes.n {
        let pointer = usize::from(board.pointers[i]);
        if i + 1 < pointer {
            end = pointer;
        }
        read[i] = read_digit(board.sizes.k, i + 1, end, board.counters[i]);
    }
    read
}

// The rank that digits in their ranges stand for.
fn rank_of(sizes: Sizes, digits: [u8; WIDE]) -> u64
    requires { DigitsAsked sizes.n sizes.k digits }
    ensures { result ≡ of_digits sizes.n sizes.k (place digits) }
{
    let mut rank = 0u64;
    let mut weight = 1u64;
    for i in 0..sizes.n {
        rank += u64::from(digits[i]) * weight;
        weight *= (sizes.k * (i + 1)) as u64;
    }
    rank
}

// The reading of two buffers that have their lengths.
fn read_lent(board: Board) -> Result<u64, Refusal>
    ensures { Reads board.entry.sizes.n board.entry.sizes.k board.entry.counters.now board.entry.pointers.now result }
{
    let sizes = board.sizes;
    let read = read_digits(board);
    let own_counters = digits::counters(sizes, read);
    refuse_if(Fault::Board, &own_counters[..sizes.n] != board.counters)?;
    let own_pointers = digits::pointers(sizes, read);
    refuse_if(Fault::Board, &own_pointers[..sizes.n + 1] != board.pointers)?;
    Ok(rank_of(sizes, read))
}

// The reading of any n and k and of any two lent buffers: the rank, or the refusal. `step::judge` has the shape:
// the two differ in what they ask of the board, and a closure for that would be longer than the call.
pub fn read(n: usize, k: usize, counters: &[u8], pointers: &[u8]) -> Result<u64, Refusal>
    ensures { Reads n k counters.now pointers.now result }
{
    let board = Board::new(n, k, counters, pointers)?;
    read_lent(board)
}
