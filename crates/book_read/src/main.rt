// The reader of books: reads a book from standard input and prints a line for each entry, n k count rank
// and its slots. A book that is refused prints only the line of its refusal, on standard error.
#![tactic(auto)]

ghost use Rattle.std.specs.Prelude.{◌≡◌, ◌+◌, ◌-◌, ◌≤◌, OnOk, OnErr};
ghost use Rattle.arrayvec.specs.ArrayVec.{array_vec_len, Extends};
ghost use Rattle.sizes.specs.Refusal.{fine};
ghost use Rattle.text.specs.Text.{entry_most};
ghost use Rattle.book.specs.Format.{format_one};
ghost use Rattle.book.specs.Read.{book_verdict};
ghost use Rattle.book_read.specs.Lines.{line_of, lines_of, lines_most};

use arrayvec::ArrayVec;
use entry::asked::Entry;
use sizes::{MOST_SLOTS, Verdict};
use text::write;

// A byte more than the longest book: more is not looked at, since it is refused alike.
const LONGEST: usize = 2179;

// Room for the lines of any book.
const ROOM: usize = 65536;

// Puts the line of an entry.
fn put_line(out: &mut ArrayVec<u8, ROOM>, entry: Entry)
    requires { array_vec_len out.old + entry_most ≤ 65536 }
    ensures put { Extends out.old (line_of entry.entry.book.now (entry.entry.number - 1)) out.new }
    ensures upper_bound { array_vec_len out.new ≤ array_vec_len out.old + entry_most }
{
    let n = entry.slots();
    let k = entry.settings();
    let count = entry.count();
    let rank = entry.rank();
    let mut modules = [0u8; MOST_SLOTS];
    let mut settings = [0u8; MOST_SLOTS];
    entry.write(&mut modules[..n], &mut settings[..n]);
    write::put_entry(out, k, count, rank, &modules[..n], &settings[..n]);
}

// Puts the lines of all entries.
fn put_lines(out: &mut ArrayVec<u8, ROOM>, book: &[u8])
    requires { (array_vec_len out.old + lines_most ≤ 65536) × (book_verdict format_one book.now ≡ fine) }
    ensures { Extends out.old (lines_of book.now) out.new }
{
    for i in 0..usize::from(book[1]) {
        let entry = Entry {
            book,
            number: i + 1,
        };
        put_line(out, entry);
    }
}

// Puts what is to be printed of any bytes as a book, where they are one.
fn answer(book: &[u8], out: &mut ArrayVec<u8, ROOM>) -> Verdict
    requires { array_vec_len out.old + lines_most ≤ 65536 }
    ensures verdict { result ≡ book_verdict format_one book.now }
    ensures text { OnOk result (Extends out.old (lines_of book.now) out.new) }
    ensures kept { OnErr result (out.new ≡ out.old) }
{
    book::check::judge_book(book)?;
    put_lines(out, book);
    Ok(())
}

fn main(rt: HostRuntime) {
    let mut input = [0u8; LONGEST];
    let mut out = ArrayVec::<u8, ROOM>::new();
    let count = streams::read_full(&mut rt.stdin(), &mut input);
    let verdict = answer(&input[..count], &mut out);
    print::print(verdict, &out, &mut rt.stdout(), &mut rt.stderr());
}
