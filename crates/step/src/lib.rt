// One step of a board, and its check. It reads the pointer at s and what it points to, and looks no
// further, so that it costs the same whatever n is.
#![tactic(auto)]

ghost use Rattle.std.specs.Prelude.{◌≡◌, cond, suc, ◌+◌, ◌≤◌, ◌<◌, length};
ghost use Rattle.sizes.specs.Sizes.{most_slots};
ghost use Rattle.board.specs.Board.{place as place_of};
ghost use Rattle.step.specs.Step.{put as put_in, closes, step_flip, counter_verdict, step_verdict, lent_step_verdict, stepped_counters, stepped_pointers};
ghost use Rattle.step.specs.Asked.{FillAsked, StepAsked};

use board::digits::lowest_digit;
use board::lent::Board;
use sizes::{Fault, Verdict, outside, refuse_if};

// The number at a place of a row, counted from 1.
fn place(numbers: &[u8], j: usize) -> usize
    requires { (1 ≤ j) × (j ≤ length numbers.now) }
    ensures { (result ≡ place_of numbers.now j) × (result < 256) }
{
    usize::from(numbers[j - 1])
}

// Puts a number at a place of a row, counted from 1.
fn put(numbers: &mut [u8], j: usize, number: usize)
    requires { (1 ≤ j) × (j ≤ length numbers.old) × (number < 256) }
    ensures { numbers.new ≡ put_in numbers.old j number }
{
    numbers[j - 1] = number as u8;
}

// The check of digit x, to which the pointer at s points.
fn judge_digit(board: Board, x: usize) -> Verdict
    requires { (1 ≤ x) × (x ≤ board.sizes.n) }
    ensures { result ≡ counter_verdict board.entry.sizes.n board.entry.sizes.k x board.entry.counters.now board.entry.pointers.now }
{
    let full = board.sizes.k * x - 1;
    let counter = place(board.counters, x);
    refuse_if(Fault::Board, full <= counter)?;
    if counter + 1 != full {
        return Ok(());
    }
    let end = place(board.pointers, x + 1);
    refuse_if(Fault::Board, outside(x + 1, board.sizes.n + 1, end))
}

// The check of a step, of two buffers that have their lengths.
fn judge_step(board: Board) -> Verdict
    ensures { result ≡ step_verdict board.entry.sizes.n board.entry.sizes.k board.entry.counters.now board.entry.pointers.now }
{
    let s = lowest_digit(board.sizes.k);
    let x = place(board.pointers, s);
    refuse_if(Fault::Board, x < s)?;
    if x <= board.sizes.n {
        return judge_digit(board, x);
    }
    refuse_if(Fault::Board, x != board.sizes.n + 1)
}

// The check of any n and k and of a step of any two lent buffers.
pub fn judge(n: usize, k: usize, counters: &[u8], pointers: &[u8]) -> Verdict
    ensures { result ≡ lent_step_verdict n k counters.now pointers.now }
{
    let board = Board::new(n, k, counters, pointers)?;
    judge_step(board)
}

// Digit x becomes full: it joins the run behind it.
fn fill(s: usize, x: usize, counters: &mut [u8], pointers: &mut [u8])
    requires { FillAsked s x counters.old pointers.old }
    ensures counters_after { counters.new ≡ put_in counters.old x 0 }
    ensures pointers_after { pointers.new ≡ put_in (put_in (put_in pointers.old s s) x (place_of pointers.old (suc x))) (suc x) (suc x) }
{
    let end = place(pointers, x + 1);
    put(counters, x, 0);
    put(pointers, s, s);
    put(pointers, x, end);
    put(pointers, x + 1, x + 1);
}

// What a step answers: the length of the flip, and whether the round closed; each step has both.
#[derive(Clone, Copy)]
pub struct Stepped {
    pub flip: usize,
    pub closed: bool,
}

// The step, of a board that it does not refuse. Its buffers are lent to write in, and a `Board` holds them
// to be read: so what that says is asked in a clause.
pub fn step(n: usize, k: usize, counters: &mut [u8], pointers: &mut [u8]) -> Stepped
    requires { StepAsked n k counters.old pointers.old }
    ensures flip_value { result.flip ≡ step_flip n k pointers.old }
    ensures closed_value { result.closed ≡ closes n k pointers.old }
    ensures counters_after { counters.new ≡ stepped_counters n k counters.old pointers.old }
    ensures pointers_after { pointers.new ≡ stepped_pointers n k counters.old pointers.old }
{
    let s = lowest_digit(k);
    let x = place(pointers, s);
    if n < x {
        put(pointers, s, s);
        return Stepped {
            flip: n,
            closed: true,
        };
    }
    let counter = place(counters, x) + 1;
    if counter != k * x - 1 {
        put(pointers, s, s);
        put(counters, x, counter);
        return Stepped {
            flip: x,
            closed: false,
        };
    }
    fill(s, x, counters, pointers);
    Stepped {
        flip: x,
        closed: false,
    }
}

// What a step answers, as one number: the flip, and 256 where the round closed.
pub fn number_of(stepped: Stepped) -> u64
    requires { stepped.flip ≤ most_slots }
    ensures { result ≡ stepped.flip + cond stepped.closed 256 0 }
{
    let flip = stepped.flip as u64;
    if stepped.closed { flip + 256 } else { flip }
}
