// What an entry of a book says, 01's entry 1 to E: the reading of any bytes (`read_lent`), the check that
// it begins with (`judge`), and what each reads of a book that has been checked (`asked`).
#![tactic(auto)]

pub mod asked;

ghost use Rattle.std.specs.Prelude.{◌≡◌};
ghost use Rattle.sizes.specs.Outcome.{Does};
ghost use Rattle.book.specs.Format.{format_one};
ghost use Rattle.book.specs.Read.{lent_entry_verdict};
ghost use Rattle.entry.specs.Entry.{entry_leaves};

use asked::Entry;
use sizes::{Fault, Refusal, Verdict, refuse_if};

// The check of any bytes as a book, of any entry asked for and of any two lent buffers.
pub fn judge(book: &[u8], entry: usize, modules: &[u8], settings: &[u8]) -> Verdict
    ensures { result ≡ lent_entry_verdict format_one book.now entry modules.now settings.now }
{
    let asked = Entry::new(book, entry)?;
    let n = asked.slots();
    refuse_if(Fault::Length, modules.len() != n)?;
    refuse_if(Fault::Length, settings.len() != n)
}

// The reading of any bytes as a book, for any entry asked for, into any two lent buffers; n and k are
// its answer, as one number.
pub fn read_lent(
    book: &[u8],
    entry: usize,
    modules: &mut [u8],
    settings: &mut [u8],
) -> Result<usize, Refusal>
    ensures { Does (entry_leaves book.now entry modules.old settings.old) result modules.new settings.new }
{
    judge(book, entry, modules, settings)?;
    let asked = Entry {
        book,
        number: entry,
    };
    asked.write(modules, settings);
    Ok(asked.slots() + 256 * asked.settings())
}
