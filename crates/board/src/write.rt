// The board of a rank: the digits are taken off once, and their board is written.
ghost use Rattle.std.specs.Prelude.{◌≡◌, suc, length};
ghost use Rattle.rows.specs.Row.{front};
ghost use Rattle.sizes.specs.Outcome.{Does};
ghost use Rattle.rows.specs.Copy.{blank};
ghost use Rattle.order.specs.Digits.{digit};
ghost use Rattle.board.specs.Board.{IsBoard, board_leaves};

use crate::digits;
use rank::start::Start;
use rows::copy;
use rows::copy::WIDE;
use sizes::Verdict;
use sizes::permitted::Sizes;

// The digits 1 to n of a rank, and 0 behind them.
fn take_digits(start: Start) -> [u8; WIDE]
    ensures { result ≡ front (λ i. digit start.sizes.k start.rank (suc i)) start.sizes.n blank }
{
    let mut taken = [0u8; WIDE];
    let mut above = start.rank;
    for i in 0..start.sizes.n {
        let base = (start.sizes.k * (i + 1)) as u64;
        taken[i] = (above % base) as u8;
        above /= base;
    }
    taken
}

// Writes the board of a rank that has been checked into two buffers that have their lengths.
pub fn write(start: Start, counters: &mut [u8], pointers: &mut [u8])
    requires { (length counters.old ≡ start.sizes.n) × (length pointers.old ≡ suc start.sizes.n) }
    ensures { IsBoard start.sizes.n start.sizes.k start.rank counters.new pointers.new }
{
    let sizes = start.sizes;
    let taken = take_digits(start);
    copy::store(sizes.n, digits::counters(sizes, taken), counters);
    copy::store(sizes.n + 1, digits::pointers(sizes, taken), pointers);
}

// Writes the board of any rank into any two lent buffers. `unrank::write_lent` has the shape: the two differ in
// what they write, and a closure for that would be no shorter.
pub fn write_lent(
    n: usize,
    k: usize,
    rank: u64,
    counters: &mut [u8],
    pointers: &mut [u8],
) -> Verdict
    ensures { Does (board_leaves n k rank counters.old pointers.old) result counters.new pointers.new }
{
    rank::check::judge(n, k, rank, counters, 1, pointers)?;
    let sizes = Sizes { n, k };
    write(Start { sizes, rank }, counters, pointers);
    Ok(())
}
