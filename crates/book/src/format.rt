// The bytes of a book: places, numbers and bodies.
ghost use Rattle.std.specs.Prelude.{◌≡◌, ◌+◌, ◌<◌, ◌≤◌, length};
ghost use Rattle.rows.specs.Row.{at, row};
ghost use Rattle.book.specs.Format.{most_entries, entry_place_lem, number_in, format_one};
ghost use Rattle.book.specs.Read.{entry_of};

pub const MOST_ENTRIES: usize = 64;

// A stretch of a round of n slots with k settings: its start rank and its count.
#[derive(Clone, Copy)]
pub struct Stretch {
    pub n: usize,
    pub k: usize,
    pub rank: u64,
    pub count: u64,
}

// Where an entry begins; of the entry number, where the contents end.
#[tactic(auto, unfolding(crate::specs::Format::entry_place_lem))]
pub fn entry_place(i: usize) -> usize
    requires { i ≤ most_entries }
    ensures { result ≡ entry_place_lem i }
{
    2 + 14 * i
}

// The bytes of an entry: n, k, the offset of its body, and the count.
pub fn entry(book: &[u8], i: usize) -> &[u8]
    requires { (i < most_entries) × (entry_place_lem i + 14 ≤ length book.now) }
    ensures is { result.now ≡ entry_of book.now i }
    ensures long { length result.now ≡ 14 }
{
    let place = entry_place(i);
    &book[place..place + 14]
}

// The number in some bytes, least first: four or eight of them, so `from_le_bytes` would be two functions.
pub fn number_in(bytes: &[u8]) -> u64
    requires { length bytes.now ≤ 8 }
    ensures { result ≡ number_in bytes.now }
{
    let mut number = 0;
    for byte in bytes.iter().rev() {
        number = number * 256 + u64::from(*byte);
    }
    number
}

// Writes the arrangement of a body into two rows of as many slots as it has.
pub fn take_body(body: &[u8], modules: &mut [u8], settings: &mut [u8])
    requires { (length modules.old ≡ length body.now) × (length settings.old ≡ length body.now) }
    ensures modules_after { modules.new ≡ row (format_one.module_in (at body.now)) (length body.now) }
    ensures settings_after { settings.new ≡ row (format_one.setting_in (at body.now)) (length body.now) }
{
    for (i, byte) in body.iter().enumerate() {
        modules[i] = *byte % 32;
        settings[i] = *byte / 32;
    }
}
