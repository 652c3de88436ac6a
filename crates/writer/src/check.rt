// The check of four lists and of a buffer, in W-201's own order: the lists' lengths, how many stretches
// there are, each stretch, and the buffer's length.
ghost use Rattle.std.specs.Prelude.{◌≡◌, ◌*◌, length};
ghost use Rattle.arrangement.specs.Check.{length_verdict};
ghost use Rattle.book.specs.Read.{first_of};
ghost use Rattle.writer.specs.Write.{lent, stretch_at_lem, lists_verdict, stretch_verdict, write_verdict};

use crate::lists;
use crate::lists::{Lists, Stretches};
use book::check;
use book::format::{MOST_ENTRIES, Stretch};
use rank::start::Start;
use sizes::{Fault, Verdict, outside, refuse_if};

// The check that a list has so many numbers of eight bytes each.
fn judge_words(list: &[u8], stretches: usize) -> Verdict
    ensures { result ≡ length_verdict (8 * stretches) list.now }
{
    let words = list.len() / 8;
    refuse_if(Fault::Length, words != stretches || list.len() % 8 != 0)
}

// The check that the lists are of one length.
fn judge_lists(lists: &Lists) -> Verdict
    ensures { result ≡ lists_verdict (lent lists.now) }
{
    let stretches = lists.ns.len();
    refuse_if(Fault::Length, lists.ks.len() != stretches)?;
    judge_words(lists.ranks, stretches)?;
    judge_words(lists.counts, stretches)
}

// The check of any stretch.
fn judge_stretch(stretch: Stretch) -> Verdict
    ensures { result ≡ stretch_verdict stretch }
{
    let start = Start::new(stretch.n, stretch.k, stretch.rank)?;
    check::judge_count(start.sizes, stretch.count)
}

// The check of all stretches.
fn judge_stretches(stretches: Stretches) -> Verdict
    ensures { result ≡ first_of (λ i. stretch_verdict (stretch_at_lem (lent stretches.entry.lists) i)) (length stretches.entry.lists.ns.now) }
{
    for i in 0..stretches.lists.ns.len() {
        check::in_entry(i, judge_stretch(stretches.stretch_at(i)))?;
    }
    Ok(())
}

// The check of any four lists and of any buffer.
pub fn judge(lists: &Lists, buffer: &[u8]) -> Verdict
    ensures { result ≡ write_verdict (lent lists.now) buffer.now }
{
    judge_lists(lists)?;
    refuse_if(Fault::Format, outside(1, MOST_ENTRIES, lists.ns.len()))?;
    judge_stretches(Stretches { lists: *lists })?;
    refuse_if(Fault::Length, buffer.len() < lists::book_length(lists.ns))
}
