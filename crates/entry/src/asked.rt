// An entry of a book, where both have been checked: 01's entry 1 to E of a book that isn't refused.
ghost use Rattle.std.specs.Prelude.{◌≡◌, ◌-◌, ◌≤◌, length, IfOk};
ghost use Rattle.rows.specs.Row.{row};
ghost use Rattle.sizes.specs.Refusal.{checked, fine};
ghost use Rattle.sizes.specs.Sizes.{most_slots, most_settings};
ghost use Rattle.book.specs.Format.{format_one};
ghost use Rattle.book.specs.Read.{entry_of, n_of, k_of, count_of, expected, rank_of, modules_of, settings_of, asked_verdict};

use arrangement::lent::Arrangement;
use book::{check, format};
use sizes::permitted::Sizes;
use sizes::{MOST_SLOTS, Refusal};

#[derive(Clone, Copy)]
pub struct Entry<'a> {
    pub book: &'a [u8],
    pub number: usize,
    pub ghost fine: { asked_verdict format_one book.now number ≡ fine },
}

impl<'a> Entry<'a> {
    // The entry of any bytes as a book and of any entry asked for.
    pub fn new(book: &'a [u8], entry: usize) -> Result<Entry<'a>, Refusal>
        ensures verdict { checked result ≡ asked_verdict format_one book.now entry }
        ensures entry { IfOk result (λ made. (made.book.now ≡ book.now) × (made.number ≡ entry)) }
    {
        check::judge(book, entry)?;
        Ok(Entry {
            book,
            number: entry,
        })
    }

    // Its bytes.
    fn bytes(self) -> &'a [u8]
        ensures is { result.now ≡ entry_of self.entry.book.now (self.entry.number - 1) }
        ensures long { length result.now ≡ 14 }
    {
        format::entry(self.book, self.number - 1)
    }

    // n, how many slots there are.
    pub fn slots(self) -> usize
        ensures { (result ≡ n_of self.entry.book.now (self.entry.number - 1)) × (result ≤ most_slots) }
    {
        usize::from(self.bytes()[0])
    }

    // k, how many settings there are.
    pub fn settings(self) -> usize
        ensures { (result ≡ k_of self.entry.book.now (self.entry.number - 1)) × (result ≤ most_settings) }
    {
        usize::from(self.bytes()[1])
    }

    // The count of the stretch.
    pub fn count(self) -> u64
        ensures { result ≡ count_of self.entry.book.now (self.entry.number - 1) }
    {
        format::number_in(&self.bytes()[6..14])
    }

    // Where its body begins: the check held the offset to the expected one.
    fn body(self) -> usize
        ensures { result ≡ expected format_one self.entry.book.now (self.entry.number - 1) }
    {
        format::number_in(&self.bytes()[2..6]) as usize
    }

    // Writes the first arrangement of the stretch into two rows of n bytes.
    pub fn write(self, modules: &mut [u8], settings: &mut [u8])
        requires { (length modules.old ≡ n_of self.book.now (self.number - 1)) × (length settings.old ≡ n_of self.book.now (self.number - 1)) }
        ensures modules_after { modules.new ≡ row (modules_of format_one self.entry.book.now (self.entry.number - 1)) (n_of self.entry.book.now (self.entry.number - 1)) }
        ensures settings_after { settings.new ≡ row (settings_of format_one self.entry.book.now (self.entry.number - 1)) (n_of self.entry.book.now (self.entry.number - 1)) }
    {
        let from = self.body();
        format::take_body(&self.book[from..from + modules.len()], modules, settings);
    }

    // The rank of that arrangement.
    pub fn rank(self) -> u64
        ensures { result ≡ rank_of format_one self.entry.book.now (self.entry.number - 1) }
    {
        let n = self.slots();
        let k = self.settings();
        let mut modules = [0u8; MOST_SLOTS];
        let mut settings = [0u8; MOST_SLOTS];
        self.write(&mut modules[..n], &mut settings[..n]);
        rank::rank(Arrangement {
            sizes: Sizes { n, k },
            modules: &modules[..n],
            settings: &settings[..n],
        })
    }
}
