// The check of an arrangement. A search answers the lowest bad slot, counted from 0. What is checked are
// numbers and rows as they are lent; `lent` holds what is let pass.
ghost use Rattle.std.specs.Prelude.{◌≡◌, ◌≤◌, eqb, length};
ghost use Rattle.rows.specs.Row.{at};
ghost use Rattle.rows.specs.Search.{outside, lowest};
ghost use Rattle.sizes.specs.Sizes.{most_slots};
ghost use Rattle.sizes.specs.Refusal.{refused_at_lem};
ghost use Rattle.arrangement.specs.Check.{place_found, repeated, buffers_verdict, slots_verdict, lent_verdict, Marked};

use rows::copy::WIDE;
use sizes::{Fault, Refusal, Verdict, outside, refuse_if};

// The lowest slot whose byte is below `low` or above `high`.
fn first_outside(low: usize, high: usize, slots: &[u8]) -> Option<usize>
    ensures { place_found result ≡ lowest (λ i. outside low high (at slots.now i)) (length slots.now) }
{
    for (i, byte) in slots.iter().enumerate() {
        if outside(low, high, usize::from(*byte)) {
            return Some(i);
        }
    }
    None
}

// Whether no module stands twice, by one pass with no branch, of modules below 32.
fn none_twice(modules: &[u8]) -> bool
    requires { Marked modules.now }
    ensures { result ≡ eqb (lowest (repeated (at modules.now)) (length modules.now)) 0 }
{
    let mut stands = [0u8; WIDE];
    let mut twice = 0u8;
    for module in modules {
        let module = usize::from(*module);
        twice += stands[module];
        stands[module] = 1;
    }
    twice == 0
}

// The lowest slot whose module already stands in a lower slot: two loops left by a label, the form that 01
// names for it.
fn repeated_module(modules: &[u8]) -> Option<usize>
    ensures { place_found result ≡ lowest (repeated (at modules.now)) (length modules.now) }
{
    let mut found = None;
    'slots: for i in 0..modules.len() {
        for h in 0..i {
            if modules[h] == modules[i] {
                found = Some(i);
                break 'slots;
            }
        }
    }
    found
}

// The same, of modules below 32: the slots are searched only where one stands twice.
fn first_repeat(modules: &[u8]) -> Option<usize>
    requires { Marked modules.now }
    ensures { place_found result ≡ lowest (repeated (at modules.now)) (length modules.now) }
{
    if none_twice(modules) {
        return None;
    }
    repeated_module(modules)
}

// The verdict of a search for a slot that is refused.
fn refuse_at(fault: Fault, found: Option<usize>) -> Verdict
    requires { place_found found ≤ most_slots }
    ensures { result ≡ refused_at_lem fault (place_found found) }
{
    match found {
        None => Ok(()),
        Some(slot) => Err(Refusal {
            fault,
            place: (slot + 1) as u8,
        }),
    }
}

// The check of n slots, in two rows of n bytes.
pub fn judge_slots(n: usize, k: usize, modules: &[u8], settings: &[u8]) -> Verdict
    requires { (n ≤ most_slots) × (1 ≤ k) × (length modules.now ≡ n) × (length settings.now ≡ n) }
    ensures { result ≡ slots_verdict n k (at modules.now) (at settings.now) }
{
    refuse_at(Fault::Module, first_outside(1, n, modules))?;
    refuse_at(Fault::Repeat, first_repeat(modules))?;
    refuse_at(Fault::Setting, first_outside(0, k - 1, settings))
}

// The check of any n and k and of any two lent buffers, of which the second should have `more` bytes
// more than the first.
pub fn judge_buffers(n: usize, k: usize, first: &[u8], more: usize, second: &[u8]) -> Verdict
    requires { more ≤ 1 }
    ensures { result ≡ buffers_verdict n k first.now more second.now }
{
    sizes::judge(n, k)?;
    refuse_if(Fault::Length, first.len() != n)?;
    refuse_if(Fault::Length, second.len() != n + more)
}

// The check of any n and k and of an arrangement in any two lent buffers.
pub fn judge(n: usize, k: usize, modules: &[u8], settings: &[u8]) -> Verdict
    ensures { result ≡ lent_verdict n k modules.now settings.now }
{
    judge_buffers(n, k, modules, 0, settings)?;
    judge_slots(n, k, modules, settings)
}
