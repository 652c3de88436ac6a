// The writer of books: reads lines n k rank count from standard input, a stretch a line, and writes the
// bytes of their book to standard output. What is refused prints only the line of its refusal, on standard
// error; a line that can't be read is refused before anything else, by its number.
#![tactic(auto)]

ghost use Rattle.std.specs.Prelude.{◌≡◌, ◌≤◌, IfOk};
ghost use Rattle.book_write.specs.Lines.{in_byte_lem, most_lines, Takes, Answers, Shows};

use sizes::{Fault, Refusal, Verdict};
use writer::lists::Lists;
use writer::write;

// A line more than a book has entries: more are not looked at, since 65 are refused alike.
const MOST_LINES: usize = 65;

// Eight bytes for each.
const WORDS: usize = 520;

// A byte more than so many lines of four numbers of 20 digits.
const LONGEST: usize = 5461;

// Room for the longest book.
const BUFFER: usize = 4096;

// A number in a byte: 255 where it doesn't fit, which is refused as it would be.
fn in_byte(number: u64) -> u8
    ensures { result ≡ in_byte_lem number }
{
    u8::try_from(number).unwrap_or(255)
}

// Takes the lines of any input into four lists, and answers how many stretches they say. The lists are
// written here, and `Lists` holds them to be read: so they stand as four. They are arrays, which have their
// lengths by type: of an `ArrayVec` the length would be promised, and `put_number` writes in slices.
fn take_lines(
    input: &[u8],
    ns: &mut [u8; MOST_LINES],
    ks: &mut [u8; MOST_LINES],
    ranks: &mut [u8; WORDS],
    counts: &mut [u8; WORDS],
) -> Result<usize, Refusal>
    ensures takes { Takes input.now ns.new ks.new ranks.new counts.new result }
    ensures few { IfOk result (λ m. m ≤ most_lines) }
{
    let mut rest = input;
    for i in 0..MOST_LINES {
        if rest.is_empty() {
            return Ok(i);
        }
        let (first, behind) = rest.split_at(line::end_of(rest));
        let Some(line) = line::read(first) else {
            return Err(Refusal {
                fault: Fault::Line,
                place: (i + 1) as u8,
            });
        };
        ns[i] = in_byte(line.n);
        ks[i] = in_byte(line.k);
        write::put_number(ranks, 8 * i, line.rank, 8);
        write::put_number(counts, 8 * i, line.count, 8);
        rest = behind;
    }
    Ok(MOST_LINES)
}

// Writes the book of any input, and answers its length. Where the input is refused, nothing is written.
fn answer(input: &[u8], out: &mut [u8]) -> Result<usize, Refusal>
    ensures { Answers input.now out.old result out.new }
{
    let mut ns = [0u8; MOST_LINES];
    let mut ks = [0u8; MOST_LINES];
    let mut ranks = [0u8; WORDS];
    let mut counts = [0u8; WORDS];
    let stretches = take_lines(input, &mut ns, &mut ks, &mut ranks, &mut counts)?;
    let words = 8 * stretches;
    let lists = Lists {
        ns: &ns[..stretches],
        ks: &ks[..stretches],
        ranks: &ranks[..words],
        counts: &counts[..words],
    };
    write::write_lent(&lists, out)
}

// What is to be printed of any input: the refusal, or where there is nothing to refuse, the book in the buffer.
fn shown<'a>(input: &[u8], out: &'a mut [u8]) -> (Verdict, &'a [u8])
    ensures { Shows input.now out.old result.0 result.1.now }
{
    match answer(input, out) {
        Ok(length) => (Ok(()), &out[..length]),
        Err(refusal) => (Err(refusal), &[]),
    }
}

fn main(rt: HostRuntime) {
    let mut input = [0u8; LONGEST];
    let mut out = [0u8; BUFFER];
    let count = streams::read_full(&mut rt.stdin(), &mut input);
    let (verdict, text) = shown(&input[..count], &mut out);
    print::print(verdict, text, &mut rt.stdout(), &mut rt.stderr());
}
