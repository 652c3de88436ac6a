// The input of the listing, one line, read byte by byte (`read`), and where lines end (`end_of`). A number
// takes a digit only where it stays below 2 ^ 64, so nothing wraps.
#![tactic(auto)]

ghost use Rattle.std.specs.Prelude.{◌≡◌, ◌+◌, ◌-◌, ◌*◌, ◌<◌, ◌≤◌, ◌==◌, true, length, drop, SomeIff, MatchOption};
ghost use Rattle.std.specs.List.{position};
ghost use Rattle.line.specs.Line.{Reads, NumberAt, NoNumber, goes_on_lem, line_long};

// The four numbers of a line.
#[derive(Clone, Copy, Debug, PartialEq, Eq)]
pub struct Numbers {
    pub n: u64,
    pub k: u64,
    pub rank: u64,
    pub count: u64,
}

// A number that was read up to `value` and goes on with a byte, or that it doesn't.
fn go_on(value: u64, byte: u8) -> Option<u64>
    ensures { SomeIff result (goes_on_lem value byte ≡ true) (value * 10 + (byte - 48)) }
{
    if value == 0 || byte < b'0' || b'9' < byte {
        return None;
    }
    value.checked_mul(10)?.checked_add(u64::from(byte - b'0'))
}

// The number that the input begins with and the byte `end` ends, and what is behind that byte.
fn read_number(input: &[u8], end: u8) -> Option<(u64, &[u8])>
    requires { end < 48 }
    ensures { MatchOption result (NoNumber input.now end) (λ part. NumberAt input.now end part.0 part.1.now) }
{
    let (first, digits) = input.split_first()?;
    if *first < b'0' || b'9' < *first {
        return None;
    }
    let mut value = u64::from(*first - b'0');
    for (i, byte) in digits.iter().enumerate() {
        if *byte == end {
            return Some((value, &digits[i + 1..]));
        }
        value = go_on(value, *byte)?;
    }
    None
}

// The reading of any bytes.
pub fn read(input: &[u8]) -> Option<Numbers>
    ensures { Reads input.now result }
{
    let (n, behind_n) = read_number(input, b' ')?;
    let (k, behind_k) = read_number(behind_n, b' ')?;
    let (rank, behind_rank) = read_number(behind_k, b' ')?;
    let (count, behind_count) = read_number(behind_rank, b'\n')?;
    if !behind_count.is_empty() {
        return None;
    }
    Some(Numbers { n, k, rank, count })
}

// Where the first newline of some bytes is.
fn find_newline(bytes: &[u8]) -> Option<usize>
    ensures { result ≡ position (λ byte. byte == 10) bytes.now }
{
    bytes.iter().position(|byte| *byte == b'\n')
}

// Where the first line ends: behind its newline, or where the input does.
pub fn end_of(input: &[u8]) -> usize
    ensures { result ≡ line_long input.now }
{
    match find_newline(input) {
        Some(i) => i + 1,
        None => input.len(),
    }
}
