// The board of digits, in rows by value. What is asked of a single digit bounds single numbers, which asks
// less than `Sizes` would.
ghost use Rattle.std.specs.Prelude.{◌≡◌, cond, suc, ◌-◌, ◌≤◌};
ghost use Rattle.rows.specs.Row.{front};
ghost use Rattle.sizes.specs.Sizes.{most_settings, most_slots};
ghost use Rattle.rows.specs.Copy.{blank};
ghost use Rattle.board.specs.Board.{place, lowest_digit_lem, full, counter as counter_of, run_end_lem, pointer as pointer_of};

use rows::copy::WIDE;
use sizes::permitted::Sizes;

// s, the lowest digit that can be below its full value.
#[tactic(auto, using(std::proofs::lemmas::Bool::Decides::nat_tests), unfolding(crate::specs::Board::lowest_digit_lem))]
pub fn lowest_digit(k: usize) -> usize
    ensures { result ≡ lowest_digit_lem k }
{
    if k == 1 { 2 } else { 1 }
}

// Whether digit j is full.
#[tactic(auto, using(std::proofs::lemmas::Bool::Decides::nat_tests), unfolding(crate::specs::Board::full))]
fn is_full(k: usize, j: usize, digit: u8) -> bool
    requires { (1 ≤ k) × (k ≤ most_settings) × (1 ≤ j) × (j ≤ suc most_slots) }
    ensures { result ≡ full k (λ _. digit) j }
{
    lowest_digit(k) <= j && usize::from(digit) == k * j - 1
}

// The counter of digit j.
#[tactic(auto, using(std::proofs::lemmas::Bool::Decides::nat_tests), unfolding(crate::specs::Board::counter))]
fn counter(k: usize, j: usize, digit: u8) -> u8
    requires { (1 ≤ k) × (k ≤ most_settings) × (1 ≤ j) × (j ≤ suc most_slots) }
    ensures { result ≡ counter_of k (λ _. digit) j }
{
    if j < lowest_digit(k) || is_full(k, j, digit) {
        return 0;
    }
    digit
}

// The counters of the digits 1 to n.
pub fn counters(sizes: Sizes, digits: [u8; WIDE]) -> [u8; WIDE]
    ensures { result ≡ front (λ i. counter_of sizes.k (place digits) (suc i)) sizes.n blank }
{
    let mut made = [0u8; WIDE];
    for i in 0..sizes.n {
        made[i] = counter(sizes.k, i + 1, digits[i]);
    }
    made
}

// The first place after the full digits from j on.
fn run_end(sizes: Sizes, j: usize, digits: [u8; WIDE]) -> usize
    requires { (1 ≤ j) × (j ≤ suc sizes.n) }
    ensures { (result ≡ run_end_lem (suc sizes.n - j) sizes.k (place digits) j) × (result ≤ suc sizes.n) }
{
    for end in j..=sizes.n {
        if !is_full(sizes.k, end, digits[end - 1]) {
            return end;
        }
    }
    sizes.n + 1
}

// The pointer of digit j, where it is known whether digit j - 1 is full.
fn pointer(sizes: Sizes, j: usize, within: bool, digits: [u8; WIDE]) -> u8
    requires { (1 ≤ j) × (j ≤ suc sizes.n) }
    ensures { result ≡ cond within j (run_end_lem (suc sizes.n - j) sizes.k (place digits) j) }
{
    if within {
        return j as u8;
    }
    run_end(sizes, j, digits) as u8
}

// The pointers of the digits 1 to n, and the one behind them. Within a run, only its first digit
// points to its end.
pub fn pointers(sizes: Sizes, digits: [u8; WIDE]) -> [u8; WIDE]
    ensures { result ≡ front (λ i. pointer_of sizes.n sizes.k (place digits) (suc i)) (suc sizes.n) blank }
{
    let mut made = [0u8; WIDE];
    let mut within = false;
    for i in 0..sizes.n + 1 {
        made[i] = pointer(sizes, i + 1, within, digits);
        within = is_full(sizes.k, i + 1, digits[i]);
    }
    made
}
