// What C asks of stretch books: an entry of a book, its count, and the rank of its arrangement; and a book
// written.
ghost use Rattle.limpet.specs.Answer.{Returns, Leaves, Writes, own_value};
ghost use Rattle.entry.specs.Entry.{entry_leaves};
ghost use Rattle.writer.specs.Write.{lists, write_tells, write_leaves};
ghost use Rattle.limpet.specs.Calls.{book_count_returns, book_rank_returns};

use crate::answer::pack;
use entry::asked::Entry;
use writer::lists::Lists;

pub fn limpet_book_read(book: &[u8], entry: usize, modules: &mut [u8], settings: &mut [u8]) -> u64
    ensures { Leaves own_value (entry_leaves book.now entry modules.old settings.old) result modules.new settings.new }
{
    pack(entry::read_lent(book, entry, modules, settings))
}

pub fn limpet_book_count(book: &[u8], entry: usize) -> u64
    ensures { Returns (book_count_returns book.now entry) result }
{
    match Entry::new(book, entry) {
        Ok(entry) => entry.count(),
        Err(_) => 0,
    }
}

pub fn limpet_book_rank(book: &[u8], entry: usize) -> u64
    ensures { Returns (book_rank_returns book.now entry) result }
{
    match Entry::new(book, entry) {
        Ok(entry) => entry.rank(),
        Err(_) => 0,
    }
}

pub fn limpet_book_write(ns: &[u8], ks: &[u8], ranks: &[u8], counts: &[u8], book: &mut [u8]) -> u64
    ensures { Writes (write_tells (lists ns.now ks.now ranks.now counts.now) book.old) (write_leaves (lists ns.now ks.now ranks.now counts.now) book.old) result book.new }
{
    let lists = Lists {
        ns,
        ks,
        ranks,
        counts,
    };
    pack(writer::write::write_lent(&lists, book))
}
