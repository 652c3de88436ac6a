// The archive that C links. Each export calls the function of its name in `limpet` and promises what that one
// promises; none has a `requires`.
#![tactic(auto)]

ghost use Rattle.limpet.specs.Answer.{Returns, Leaves, Writes, no_value, own_value};
ghost use Rattle.limpet.specs.Calls.{round_returns, total_returns, check_returns, rank_value_returns, look_returns, ReadReturns, verdict_shown, pair_returns, book_count_returns, book_rank_returns};
ghost use Rattle.flip.specs.Flip.{flip_leaves};
ghost use Rattle.unrank.specs.Unrank.{unrank_leaves};
ghost use Rattle.look.specs.Look.{next_leaves};
ghost use Rattle.board.specs.Read.{rank_read};
ghost use Rattle.board.specs.Board.{board_leaves};
ghost use Rattle.step.specs.Step.{step_leaves};
ghost use Rattle.entry.specs.Entry.{entry_leaves};
ghost use Rattle.writer.specs.Write.{lists, write_tells, write_leaves};

use limpet::{of_arrangements, of_boards, of_books, of_looks, of_ranks, of_sizes, of_stretches};

#[unsafe(no_mangle)]
pub extern "C" fn limpet_round(n: usize, k: usize) -> u64
    ensures { Returns (round_returns n k) result }
{
    of_sizes::limpet_round(n, k)
}

#[unsafe(no_mangle)]
pub extern "C" fn limpet_round_total(n: usize, k: usize) -> u64
    ensures { Returns (total_returns n k) result }
{
    of_sizes::limpet_round_total(n, k)
}

#[unsafe(no_mangle)]
pub extern "C" fn limpet_check(n: usize, k: usize, modules: &[u8], settings: &[u8]) -> u64
    ensures { Returns (check_returns n k modules.now settings.now) result }
{
    of_arrangements::limpet_check(n, k, modules, settings)
}

#[unsafe(no_mangle)]
pub extern "C" fn limpet_flip(
    n: usize,
    k: usize,
    j: usize,
    modules: &mut [u8],
    settings: &mut [u8],
) -> u64
    ensures { Leaves no_value (flip_leaves n k j modules.old settings.old) result modules.new settings.new }
{
    of_arrangements::limpet_flip(n, k, j, modules, settings)
}

#[unsafe(no_mangle)]
pub extern "C" fn limpet_rank(n: usize, k: usize, modules: &[u8], settings: &[u8]) -> u64
    ensures { Returns (check_returns n k modules.now settings.now) result }
{
    of_ranks::limpet_rank(n, k, modules, settings)
}

#[unsafe(no_mangle)]
pub extern "C" fn limpet_rank_value(n: usize, k: usize, modules: &[u8], settings: &[u8]) -> u64
    ensures { Returns (rank_value_returns n k modules.now settings.now) result }
{
    of_ranks::limpet_rank_value(n, k, modules, settings)
}

#[unsafe(no_mangle)]
pub extern "C" fn limpet_unrank(
    n: usize,
    k: usize,
    rank: u64,
    modules: &mut [u8],
    settings: &mut [u8],
) -> u64
    ensures { Leaves no_value (unrank_leaves n k rank modules.old settings.old) result modules.new settings.new }
{
    of_ranks::limpet_unrank(n, k, rank, modules, settings)
}

#[unsafe(no_mangle)]
pub extern "C" fn limpet_look(n: usize, k: usize, modules: &[u8], settings: &[u8]) -> u64
    ensures { Returns (look_returns n k modules.now settings.now) result }
{
    of_looks::limpet_look(n, k, modules, settings)
}

#[unsafe(no_mangle)]
pub extern "C" fn limpet_next(n: usize, k: usize, modules: &mut [u8], settings: &mut [u8]) -> u64
    ensures { Leaves own_value (next_leaves n k modules.old settings.old) result modules.new settings.new }
{
    of_looks::limpet_next(n, k, modules, settings)
}

#[unsafe(no_mangle)]
pub extern "C" fn limpet_board_write(
    n: usize,
    k: usize,
    rank: u64,
    counters: &mut [u8],
    pointers: &mut [u8],
) -> u64
    ensures { Leaves no_value (board_leaves n k rank counters.old pointers.old) result counters.new pointers.new }
{
    of_boards::limpet_board_write(n, k, rank, counters, pointers)
}

#[unsafe(no_mangle)]
pub extern "C" fn limpet_board_step(
    n: usize,
    k: usize,
    counters: &mut [u8],
    pointers: &mut [u8],
) -> u64
    ensures { Leaves own_value (step_leaves n k counters.old pointers.old) result counters.new pointers.new }
{
    of_boards::limpet_board_step(n, k, counters, pointers)
}

#[unsafe(no_mangle)]
pub extern "C" fn limpet_board_read(n: usize, k: usize, counters: &[u8], pointers: &[u8]) -> u64
    ensures { ReadReturns verdict_shown n k counters.now pointers.now result }
{
    of_boards::limpet_board_read(n, k, counters, pointers)
}

#[unsafe(no_mangle)]
pub extern "C" fn limpet_board_read_rank(
    n: usize,
    k: usize,
    counters: &[u8],
    pointers: &[u8],
) -> u64
    ensures { ReadReturns rank_read n k counters.now pointers.now result }
{
    of_boards::limpet_board_read_rank(n, k, counters, pointers)
}

#[unsafe(no_mangle)]
pub extern "C" fn limpet_pair_count(
    n: usize,
    k: usize,
    rank: u64,
    t: u64,
    v: usize,
    c: usize,
    w: usize,
    e: usize,
) -> u64
    ensures { Returns (pair_returns n k rank t v c w e) result }
{
    of_stretches::limpet_pair_count(n, k, rank, t, v, c, w, e)
}

#[unsafe(no_mangle)]
pub extern "C" fn limpet_book_read(
    book: &[u8],
    entry: usize,
    modules: &mut [u8],
    settings: &mut [u8],
) -> u64
    ensures { Leaves own_value (entry_leaves book.now entry modules.old settings.old) result modules.new settings.new }
{
    of_books::limpet_book_read(book, entry, modules, settings)
}

#[unsafe(no_mangle)]
pub extern "C" fn limpet_book_count(book: &[u8], entry: usize) -> u64
    ensures { Returns (book_count_returns book.now entry) result }
{
    of_books::limpet_book_count(book, entry)
}

#[unsafe(no_mangle)]
pub extern "C" fn limpet_book_rank(book: &[u8], entry: usize) -> u64
    ensures { Returns (book_rank_returns book.now entry) result }
{
    of_books::limpet_book_rank(book, entry)
}

#[unsafe(no_mangle)]
pub extern "C" fn limpet_book_write(
    ns: &[u8],
    ks: &[u8],
    ranks: &[u8],
    counts: &[u8],
    book: &mut [u8],
) -> u64
    ensures { Writes (write_tells (lists ns.now ks.now ranks.now counts.now) book.old) (write_leaves (lists ns.now ks.now ranks.now counts.now) book.old) result book.new }
{
    of_books::limpet_book_write(ns, ks, ranks, counts, book)
}
