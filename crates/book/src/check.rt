// The check of a book, in 01's own order: its head, its entries, its end, its bodies, and then the entry
// that is asked for.
ghost use Rattle.std.specs.Prelude.{◌≡◌, ◌+◌, ◌<◌, ◌≤◌, length};
ghost use Rattle.rows.specs.Row.{at};
ghost use Rattle.sizes.specs.Sizes.{most_slots};
ghost use Rattle.arrangement.specs.Check.{slots_verdict};
ghost use Rattle.book.specs.Format.{format_one, most_entries};
ghost use Rattle.book.specs.Read.{entries_of, expected, in_entry_lem, first_of, head_verdict, book_count_verdict, entry_verdict, contents_verdict, body_verdict, book_verdict, asked_verdict};
ghost use Rattle.book.specs.Asked.{ContentsAsked, BodiesAsked};

use crate::format;
use crate::format::MOST_ENTRIES;
use arrangement::check;
use sizes::permitted::Sizes;
use sizes::{Fault, MOST_SLOTS, Refusal, Verdict, outside, refuse_if};

// A verdict about an entry, which is counted from 0 here.
#[tactic(auto, unfolding(crate::specs::Read::in_entry_lem))]
pub fn in_entry(i: usize, verdict: Verdict) -> Verdict
    requires { i < most_entries }
    ensures { result ≡ in_entry_lem i verdict }
{
    verdict.map_err(|refusal| Refusal {
        place: (i + 1) as u8,
        ..refusal
    })
}

// The check of a count, of permitted sizes.
#[tactic(auto, using(std::proofs::lemmas::Bool::Decides::nat_tests), unfolding(crate::specs::Read::book_count_verdict, rows::specs::Search::outside))]
pub fn judge_count(sizes: Sizes, count: u64) -> Verdict
    ensures { result ≡ book_count_verdict sizes.n sizes.k count }
{
    refuse_if(Fault::Entry, count < 1 || sizes.total() < count)
}

// The check of an entry, whose body is expected at a place.
fn judge_entry(book: &[u8], i: usize, place: usize) -> Verdict
    requires { ContentsAsked book.now × (i < entries_of book.now) × (place ≡ expected format_one book.now i) }
    ensures { result ≡ entry_verdict format_one book.now i }
{
    let entry = format::entry(book, i);
    let sizes = Sizes::new(usize::from(entry[0]), usize::from(entry[1]))?;
    let offset = format::number_in(&entry[2..6]);
    refuse_if(Fault::Entry, offset != place as u64)?;
    judge_count(sizes, format::number_in(&entry[6..14]))
}

// The check of the entries and of the book's end. Each body is expected where the one before it ends.
fn judge_contents(book: &[u8], entries: usize) -> Verdict
    requires { ContentsAsked book.now × (entries ≡ entries_of book.now) }
    ensures { result ≡ contents_verdict format_one book.now }
{
    let mut place = format::entry_place(entries);
    for i in 0..entries {
        in_entry(i, judge_entry(book, i, place))?;
        place += usize::from(format::entry(book, i)[0]);
    }
    refuse_if(Fault::End, book.len() != place)
}

// The check of a body.
fn judge_body(body: &[u8], k: usize) -> Verdict
    requires { (length body.now ≤ most_slots) × (1 ≤ k) }
    ensures { result ≡ slots_verdict (length body.now) k (format_one.module_in (at body.now)) (format_one.setting_in (at body.now)) }
{
    let n = body.len();
    let mut modules = [0u8; MOST_SLOTS];
    let mut settings = [0u8; MOST_SLOTS];
    format::take_body(body, &mut modules[..n], &mut settings[..n]);
    check::judge_slots(n, k, &modules[..n], &settings[..n])
}

// The check of the bodies, behind entries that are in order.
fn judge_bodies(book: &[u8], entries: usize) -> Verdict
    requires { BodiesAsked book.now × (entries ≡ entries_of book.now) }
    ensures { result ≡ first_of (body_verdict format_one book.now) entries }
{
    let mut place = format::entry_place(entries);
    for i in 0..entries {
        let entry = format::entry(book, i);
        let end = place + usize::from(entry[0]);
        in_entry(i, judge_body(&book[place..end], usize::from(entry[1])))?;
        place = end;
    }
    Ok(())
}

// The check of the format and of the entry number.
#[tactic(auto, using(std::proofs::lemmas::Bool::Decides::nat_tests), unfolding(crate::specs::Read::head_verdict, crate::specs::Read::entries_of, crate::specs::Format::format_one))]
fn judge_head(book: &[u8]) -> Verdict
    requires { 2 ≤ length book.now }
    ensures { result ≡ head_verdict format_one book.now }
{
    let entries = usize::from(book[1]);
    refuse_if(
        Fault::Format,
        book[0] != 1 || outside(1, MOST_ENTRIES, entries),
    )
}

// The check of any bytes as a book.
pub fn judge_book(book: &[u8]) -> Verdict
    ensures { result ≡ book_verdict format_one book.now }
{
    refuse_if(Fault::Contents, book.len() < 2)?;
    judge_head(book)?;
    let entries = usize::from(book[1]);
    refuse_if(Fault::Contents, book.len() < format::entry_place(entries))?;
    judge_contents(book, entries)?;
    judge_bodies(book, entries)
}

// The check of any bytes as a book and of any entry asked for.
pub fn judge(book: &[u8], entry: usize) -> Verdict
    ensures { result ≡ asked_verdict format_one book.now entry }
{
    judge_book(book)?;
    refuse_if(Fault::Asked, outside(1, usize::from(book[1]), entry))
}
