// Rows by value: loaded from a lent row, and stored into one.
ghost use Rattle.std.specs.Prelude.{◌≡◌, ◌≤◌, length};
ghost use Rattle.rows.specs.Row.{at, front};
ghost use Rattle.rows.specs.Copy.{wide, blank};

// Places enough for any arrangement, and as many as fill whole vector registers: a loop over all of
// them has no rest to go through byte by byte.
pub const WIDE: usize = 32;

// The bytes of a row, and 0 behind them.
pub fn load(slots: &[u8]) -> [u8; WIDE]
    requires { length slots.now ≤ wide }
    ensures { result ≡ front (at slots.now) (length slots.now) blank }
{
    let mut copy = [0u8; WIDE];
    copy[..slots.len()].copy_from_slice(slots);
    copy
}

// Writes the first n bytes of a copy over those of a row.
pub fn store(n: usize, copy: [u8; WIDE], slots: &mut [u8])
    requires { (n ≤ wide) × (n ≤ length slots.old) }
    ensures { slots.new ≡ front (at copy) n slots.old }
{
    slots[..n].copy_from_slice(&copy[..n]);
}
