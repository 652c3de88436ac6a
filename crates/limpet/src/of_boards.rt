// What C asks of counter boards: the board of a rank, one step, and the rank of a board.
ghost use Rattle.limpet.specs.Answer.{Leaves, no_value, own_value};
ghost use Rattle.board.specs.Read.{rank_read};
ghost use Rattle.board.specs.Board.{board_leaves};
ghost use Rattle.step.specs.Step.{step_leaves};
ghost use Rattle.limpet.specs.Calls.{ReadReturns, verdict_shown};

use crate::answer::{pack_refusal, pack_value, pack_verdict};

pub fn limpet_board_write(
    n: usize,
    k: usize,
    rank: u64,
    counters: &mut [u8],
    pointers: &mut [u8],
) -> u64
    ensures { Leaves no_value (board_leaves n k rank counters.old pointers.old) result counters.new pointers.new }
{
    pack_verdict(board::write::write_lent(n, k, rank, counters, pointers))
}

// A step is a few comparisons long, and is the faster for packing its answer on each branch.
pub fn limpet_board_step(n: usize, k: usize, counters: &mut [u8], pointers: &mut [u8]) -> u64
    ensures { Leaves own_value (step_leaves n k counters.old pointers.old) result counters.new pointers.new }
{
    match step::judge(n, k, counters, pointers) {
        Ok(()) => {
            let stepped = step::step(n, k, counters, pointers);
            pack_value(step::number_of(stepped))
        }
        Err(refusal) => pack_refusal(refusal),
    }
}

pub fn limpet_board_read(n: usize, k: usize, counters: &[u8], pointers: &[u8]) -> u64
    ensures { ReadReturns verdict_shown n k counters.now pointers.now result }
{
    match board::read::read(n, k, counters, pointers) {
        Ok(_) => 0,
        Err(refusal) => pack_refusal(refusal),
    }
}

pub fn limpet_board_read_rank(n: usize, k: usize, counters: &[u8], pointers: &[u8]) -> u64
    ensures { ReadReturns rank_read n k counters.now pointers.now result }
{
    board::read::read(n, k, counters, pointers).unwrap_or(0)
}
