// Bytes written into a buffer that C lends, from a place on: so they are written where they lie. The answer
// is the place behind what was written.
ghost use Rattle.std.specs.Prelude.{[], ◌∷◌, ◌+◌, ◌≤◌, length};
ghost use Rattle.rows.specs.Put.{Put};

// One byte.
pub fn put_byte(out: &mut [u8], from: usize, byte: u8) -> usize
    requires { from + 1 ≤ length out.old }
    ensures { Put out.old from (byte ∷ []) result out.new }
{
    out[from] = byte;
    from + 1
}
