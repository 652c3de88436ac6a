// The lines of the programs, each appended to a text that has room for it. The room is of the text as it
// stands at a call, so it is asked in a clause, and no type holds it. Lines are no `Display`: by it and `write!`
// the listing takes half as long again, and `write!` doesn't promise that what has room is appended.
ghost use Rattle.std.specs.Prelude.{◌≡◌, [], ◌∷◌, ◌++◌, ◌+◌, ◌*◌, ◌≤◌, length};
ghost use Rattle.arrayvec.specs.ArrayVec.{array_vec_len, Extends};
ghost use Rattle.rows.specs.Row.{at as slot_of};
ghost use Rattle.line.specs.Decimal.{decimal, ended};
ghost use Rattle.text.specs.Text.{slot, slots, head_line, slot_line, next_line, refused_line, refused_at_line, entry_line, line_most, entry_most};

use arrayvec::ArrayVec;
use itoa::Buffer;
use line::Numbers;

// The most bytes of a line of the listing.
pub const LINE_MOST: usize = 202;

// Bytes as they are.
fn put_text<const N: usize>(out: &mut ArrayVec<u8, N>, text: &[u8])
    requires { array_vec_len out.old + length text.now ≤ N }
    ensures { Extends out.old text.now out.new }
{
    out.try_extend_from_slice(text).unwrap();
}

// A number. One digit, as most numbers of a listing have, is put without a buffer, which takes longer.
pub fn put_number<const N: usize>(out: &mut ArrayVec<u8, N>, number: u64)
    requires { array_vec_len out.old + length (decimal number) ≤ N }
    ensures { Extends out.old (decimal number) out.new }
{
    if number < 10 {
        out.push(b'0' + number as u8);
        return;
    }
    let mut digits = Buffer::new();
    put_text(out, digits.format(number).as_bytes());
}

// A number, and the byte that ends it.
fn put_ended<const N: usize>(out: &mut ArrayVec<u8, N>, number: u64, end: u8)
    requires { array_vec_len out.old + length (ended number end) ≤ N }
    ensures { Extends out.old (ended number end) out.new }
{
    put_number(out, number);
    out.push(end);
}

// The head line.
pub fn put_head<const N: usize>(out: &mut ArrayVec<u8, N>, numbers: Numbers)
    requires { array_vec_len out.old + line_most ≤ N }
    ensures put { Extends out.old (head_line numbers.n numbers.k numbers.rank numbers.count) out.new }
    ensures upper_bound { array_vec_len out.new ≤ array_vec_len out.old + line_most }
{
    put_text(out, b"walk ");
    put_ended(out, numbers.n, b' ');
    put_ended(out, numbers.k, b' ');
    put_ended(out, numbers.rank, b' ');
    put_ended(out, numbers.count, b'\n');
}

// One slot of an arrangement, by the number of its module.
fn put_slot<const N: usize>(out: &mut ArrayVec<u8, N>, number: u8, setting: u8)
    requires { array_vec_len out.old + 8 ≤ N }
    ensures { Extends out.old (slot number setting) out.new }
{
    out.push(b' ');
    put_ended(out, u64::from(number), b':');
    put_number(out, u64::from(setting));
}

// All slots of an arrangement.
fn put_each<const N: usize>(out: &mut ArrayVec<u8, N>, modules: &[u8], settings: &[u8])
    requires { (array_vec_len out.old + 8 * length modules.now ≤ N) × (length settings.now ≡ length modules.now) }
    ensures { Extends out.old (slots (length modules.now) (slot_of modules.now) (slot_of settings.now)) out.new }
{
    for (module, setting) in modules.iter().zip(settings) {
        put_slot(out, *module, *setting);
    }
}

// The line of an arrangement.
pub fn put_slots<const N: usize>(
    out: &mut ArrayVec<u8, N>,
    rank: u64,
    flip: usize,
    modules: &[u8],
    settings: &[u8],
)
    requires { (array_vec_len out.old + line_most ≤ N) × (length modules.now ≤ 20) × (length settings.now ≡ length modules.now) }
    ensures put { Extends out.old (slot_line rank flip (length modules.now) (slot_of modules.now) (slot_of settings.now)) out.new }
    ensures upper_bound { array_vec_len out.new ≤ array_vec_len out.old + line_most }
{
    put_ended(out, rank, b' ');
    put_number(out, flip as u64);
    put_each(out, modules, settings);
    out.push(b'\n');
}

// The line of the rank that follows.
pub fn put_next<const N: usize>(out: &mut ArrayVec<u8, N>, rank: u64)
    requires { array_vec_len out.old + line_most ≤ N }
    ensures put { Extends out.old (next_line rank) out.new }
    ensures upper_bound { array_vec_len out.new ≤ array_vec_len out.old + line_most }
{
    put_text(out, b"next ");
    put_ended(out, rank, b'\n');
}

// The line of a refused input.
pub fn put_refused<const N: usize>(out: &mut ArrayVec<u8, N>, number: u8)
    requires { array_vec_len out.old + line_most ≤ N }
    ensures put { Extends out.old (refused_line number) out.new }
    ensures upper_bound { array_vec_len out.new ≤ array_vec_len out.old + line_most }
{
    put_text(out, b"refused ");
    put_ended(out, u64::from(number), b'\n');
}

// The line of a refusal with its place.
pub fn put_refused_at<const N: usize>(out: &mut ArrayVec<u8, N>, number: u8, place: u8)
    requires { array_vec_len out.old + line_most ≤ N }
    ensures put { Extends out.old (refused_at_line number place) out.new }
    ensures upper_bound { array_vec_len out.new ≤ array_vec_len out.old + line_most }
{
    put_text(out, b"refused ");
    put_ended(out, u64::from(number), b' ');
    put_ended(out, u64::from(place), b'\n');
}

// The line of an entry of a book: count and rank stand where an arrangement has its rank and its flip.
pub fn put_entry<const N: usize>(
    out: &mut ArrayVec<u8, N>,
    k: usize,
    count: u64,
    rank: u64,
    modules: &[u8],
    settings: &[u8],
)
    requires { (array_vec_len out.old + entry_most ≤ N) × (length modules.now ≤ 20) × (length settings.now ≡ length modules.now) }
    ensures put { Extends out.old (entry_line (length modules.now) k count rank (slot_of modules.now) (slot_of settings.now)) out.new }
    ensures upper_bound { array_vec_len out.new ≤ array_vec_len out.old + entry_most }
{
    put_ended(out, modules.len() as u64, b' ');
    put_ended(out, k as u64, b' ');
    put_slots(out, count, rank as usize, modules, settings);
}
