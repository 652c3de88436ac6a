// Stretches, lent as four lists of one length.
ghost use Rattle.std.specs.Prelude.{◌≡◌, ◌<◌, ◌≤◌, length};
ghost use Rattle.rows.specs.Row.{at};
ghost use Rattle.book.specs.Format.{format_one, most_entries, body_place};
ghost use Rattle.writer.specs.Write.{lent, stretch_at_lem};
ghost use Rattle.writer.specs.Asked.{OneLength};

use book::format;
use book::format::Stretch;

// The n and the k of each stretch, a byte each, and its start rank and its count, eight bytes each.
#[derive(Clone, Copy)]
pub struct Lists<'a> {
    pub ns: &'a [u8],
    pub ks: &'a [u8],
    pub ranks: &'a [u8],
    pub counts: &'a [u8],
}

// Stretches, of four lists that have one length, and no more than a book may have.
#[derive(Clone, Copy)]
pub struct Stretches<'a> {
    pub lists: Lists<'a>,
    pub ghost one_length: { OneLength (lent lists) },
}

impl Stretches<'_> {
    // One of them.
    pub(crate) fn stretch_at(self, i: usize) -> Stretch
        requires { i < length self.lists.ns.now }
        ensures { result ≡ stretch_at_lem (lent self.entry.lists) i }
    {
        let lists = self.lists;
        let n = usize::from(lists.ns[i]);
        let k = usize::from(lists.ks[i]);
        let rank = format::number_in(&lists.ranks[8 * i..8 * i + 8]);
        let count = format::number_in(&lists.counts[8 * i..8 * i + 8]);
        Stretch { n, k, rank, count }
    }
}

// How long the book of stretches of so many slots each is.
pub(crate) fn book_length(ns: &[u8]) -> usize
    requires { length ns.now ≤ most_entries }
    ensures { result ≡ body_place format_one (length ns.now) (at ns.now) (length ns.now) }
{
    let mut length = format::entry_place(ns.len());
    for n in ns {
        length += usize::from(*n);
    }
    length
}
