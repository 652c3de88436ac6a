// The one number that a call returns. A call that asks a floor and packs its answer is a `match`: what a
// closure under `map` or `map_or` gives has no name in a proof.
ghost use Rattle.std.specs.Prelude.{◌≡◌, ◌<◌, ◌^◌, IfOk};
ghost use Rattle.limpet.specs.Answer.{answer_of, packed, no_value, own_value};

use sizes::{Refusal, Verdict};

// The number and the place of a refusal.
pub(crate) fn pack_refusal(refusal: Refusal) -> u64
    ensures { result ≡ packed (answer_of own_value (Err refusal)) }
{
    u64::from(refusal.fault.number()) + 256 * u64::from(refusal.place)
}

// The value of a call that was done.
pub(crate) fn pack_value(value: u64) -> u64
    requires { value < 2 ^ 48 }
    ensures { result ≡ packed (answer_of own_value (Ok value)) }
{
    65536 * value
}

// What a floor below answered that has no value.
pub(crate) fn pack_verdict(verdict: Verdict) -> u64
    ensures { result ≡ packed (answer_of no_value verdict) }
{
    match verdict {
        Ok(()) => 0,
        Err(refusal) => pack_refusal(refusal),
    }
}

// And one that has a value. One function of both would need a trait for the number of an answer.
pub(crate) fn pack(answer: Result<usize, Refusal>) -> u64
    requires { IfOk answer (λ value. value < 2 ^ 48) }
    ensures { result ≡ packed (answer_of own_value answer) }
{
    match answer {
        Ok(value) => pack_value(value as u64),
        Err(refusal) => pack_refusal(refusal),
    }
}
