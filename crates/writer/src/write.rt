// The bytes of a book, written from front to back: each function writes from a place on, and answers the
// place behind what it wrote. The buffer is lent by C, so the book is written where it lies, and from places on, since
// each promise is of the whole buffer.
ghost use Rattle.std.specs.Prelude.{◌≡◌, ◌+◌, ◌*◌, ◌≤◌, ◌<◌, length};
ghost use Rattle.rows.specs.Row.{at, row};
ghost use Rattle.rows.specs.Put.{Put};
ghost use Rattle.book.specs.Format.{format_one, bytes_of, entry_place_lem, body_place, entry_bytes, body_bytes, entries_bytes, bodies_bytes, Bookable};
ghost use Rattle.writer.specs.Write.{lent, stretch_at_lem, write_tells, write_leaves};
ghost use Rattle.writer.specs.Asked.{AllBookable, SlotsAsked};

use crate::check;
use crate::lists::{Lists, Stretches};
use book::format;
use book::format::Stretch;
use rank::start::Start;
use rows::put::put_byte;
use sizes::permitted::Sizes;
use sizes::{MOST_SLOTS, Refusal};

// A number in so many bytes, least first: four or eight, so `to_le_bytes` would be two functions.
pub fn put_number(out: &mut [u8], from: usize, number: u64, width: usize) -> usize
    requires { from + width ≤ length out.old }
    ensures { Put out.old from (bytes_of width number) result out.new }
{
    let mut rest = number;
    for i in 0..width {
        out[from + i] = (rest % 256) as u8;
        rest = rest / 256;
    }
    from + width
}

// An entry, by the offset of its body.
fn put_entry(out: &mut [u8], from: usize, offset: usize, stretch: Stretch) -> usize
    requires { (from + 14 ≤ length out.old) × Bookable stretch }
    ensures { Put out.old from (entry_bytes offset stretch) result out.new }
{
    let slots = put_byte(out, from, stretch.n as u8);
    let settings = put_byte(out, slots, stretch.k as u8);
    let place = put_number(out, settings, offset as u64, 4);
    put_number(out, place, stretch.count, 8)
}

// The slots of an arrangement, setting × 32 + module.
fn put_slots(out: &mut [u8], from: usize, modules: &[u8], settings: &[u8]) -> usize
    requires { SlotsAsked from out.old modules.now settings.now }
    ensures { Put out.old from (row (format_one.byte (at modules.now) (at settings.now)) (length modules.now)) result out.new }
{
    for i in 0..modules.len() {
        out[from + i] = settings[i] * 32 + modules[i];
    }
    from + modules.len()
}

// A body.
fn put_body(out: &mut [u8], from: usize, stretch: Stretch) -> usize
    requires { (from + stretch.n ≤ length out.old) × Bookable stretch }
    ensures { Put out.old from (body_bytes format_one stretch) result out.new }
{
    let n = stretch.n;
    let mut modules = [0u8; MOST_SLOTS];
    let mut settings = [0u8; MOST_SLOTS];
    let sizes = Sizes { n, k: stretch.k };
    let start = Start {
        sizes,
        rank: stretch.rank,
    };
    unrank::write(start, &mut modules[..n], &mut settings[..n]);
    put_slots(out, from, &modules[..n], &settings[..n])
}

// All entries. A body begins behind the contents and the bodies before it.
fn put_entries(out: &mut [u8], from: usize, stretches: Stretches) -> usize
    requires { AllBookable (lent stretches.lists) × (from + 14 * length stretches.lists.ns.now ≤ length out.old) }
    ensures { Put out.old from (entries_bytes format_one (length stretches.entry.lists.ns.now) (stretch_at_lem (lent stretches.entry.lists))) result out.new }
{
    let mut end = from;
    let mut offset = format::entry_place(stretches.lists.ns.len());
    for i in 0..stretches.lists.ns.len() {
        let stretch = stretches.stretch_at(i);
        end = put_entry(out, end, offset, stretch);
        offset += stretch.n;
    }
    end
}

// All bodies.
fn put_bodies(out: &mut [u8], from: usize, stretches: Stretches) -> usize
    requires { AllBookable (lent stretches.lists) × (from ≡ entry_place_lem (length stretches.lists.ns.now)) × (body_place format_one (length stretches.lists.ns.now) (at stretches.lists.ns.now) (length stretches.lists.ns.now) ≤ length out.old) }
    ensures { Put out.old from (bodies_bytes format_one (length stretches.entry.lists.ns.now) (stretch_at_lem (lent stretches.entry.lists))) result out.new }
{
    let mut end = from;
    for i in 0..stretches.lists.ns.len() {
        end = put_body(out, end, stretches.stretch_at(i));
    }
    end
}

// Writes the book of any four lists into any buffer, from its start on; the book's length is the answer.
pub fn write_lent(lists: &Lists, book: &mut [u8]) -> Result<usize, Refusal>
    ensures value { result ≡ write_tells (lent lists.now) book.old }
    ensures book_after { book.new ≡ write_leaves (lent lists.now) book.old }
{
    check::judge(lists, book)?;
    let format = put_byte(book, 0, 1);
    let head = put_byte(book, format, lists.ns.len() as u8);
    let stretches = Stretches { lists: *lists };
    let contents = put_entries(book, head, stretches);
    Ok(put_bodies(book, contents, stretches))
}
