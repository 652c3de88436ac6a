// The listing: reads one line, n k r t, from standard input and lists the t arrangements from rank r
// on, each with its rank and the flip out of it. Output goes out in large writes.
#![tactic(auto)]

ghost use Rattle.std.specs.Prelude.{◌≡◌, ◌+◌, ◌≤◌};
ghost use Rattle.arrayvec.specs.ArrayVec.{array_vec_len, Extends};
ghost use Rattle.rows.specs.Row.{at};
ghost use Rattle.sizes.specs.Sizes.{most_slots};
ghost use Rattle.sizes.specs.Refusal.{fine};
ghost use Rattle.stretch.specs.Stretch.{stretch_verdict};
ghost use Rattle.text.specs.Text.{slot_line, line_most};

use arrayvec::ArrayVec;
use line::Numbers;
use sizes::{Fault, Refusal, Verdict};
use std::io::Write;
use stretch::Stretch;
use text::write;
use text::write::LINE_MOST;
use walk::hand;
use walk::hand::Walk;

// A byte more than the longest good input, four numbers of 20 digits: more is not looked at.
const LONGEST: usize = 85;

// Room for some hundreds of lines, which are written at once.
const ROOM: usize = 65536;

// Prints the line of a refusal.
fn refuse<W: Write>(refusal: Refusal, output: &mut W) {
    let mut line = ArrayVec::<u8, LINE_MOST>::new();
    write::put_refused(&mut line, refusal.fault.number());
    streams::write_all(output, &line);
}

// Room for one more line: the text is printed where it is short.
fn make_room<W: Write>(out: &mut ArrayVec<u8, ROOM>, output: &mut W)
    ensures { array_vec_len out.new + line_most ≤ 65536 }
{
    if out.remaining_capacity() < LINE_MOST {
        streams::write_all(output, out.as_slice());
        out.clear();
    }
}

// Puts the line of the arrangement that a walk is at.
fn put_line(out: &mut ArrayVec<u8, ROOM>, rank: u64, flip: usize, walk: Walk)
    requires { (array_vec_len out.old + line_most ≤ 65536) × (walk.n ≤ most_slots) }
    ensures put { Extends out.old (slot_line rank flip walk.n (at walk.modules) (at walk.settings)) out.new }
    ensures upper_bound { array_vec_len out.new ≤ array_vec_len out.old + line_most }
{
    let n = walk.n;
    write::put_slots(out, rank, flip, &walk.modules[..n], &walk.settings[..n]);
}

// Prints a stretch that has been checked. The walk is at a rank below T throughout, so no call on the walk
// is refused.
fn list<W: Write>(numbers: Numbers, output: &mut W)
    requires { stretch_verdict numbers.n numbers.k numbers.rank numbers.count ≡ fine }
{
    let mut out = ArrayVec::<u8, ROOM>::new();
    let mut walk = hand::make(numbers.n as usize, numbers.k as usize, numbers.rank).unwrap();
    write::put_head(&mut out, numbers);
    for _ in 0..numbers.count {
        make_room(&mut out, output);
        let rank = walk.rank().unwrap();
        let moved = walk.next().unwrap();
        put_line(&mut out, rank, moved.flip, walk);
        walk = moved.walk;
    }
    make_room(&mut out, output);
    write::put_next(&mut out, walk.rank().unwrap());
    streams::write_all(output, &out);
}

// Prints what is asked for.
fn answer<W: Write>(input: &[u8], output: &mut W) -> Verdict {
    let no_line = Refusal {
        fault: Fault::Line,
        place: 0,
    };
    let numbers = line::read(input).ok_or(no_line)?;
    stretch::judge(Stretch {
        n: numbers.n as usize,
        k: numbers.k as usize,
        rank: numbers.rank,
        t: numbers.count,
    })?;
    list(numbers, output);
    Ok(())
}

fn main(rt: HostRuntime) {
    let mut input = [0u8; LONGEST];
    let mut output = rt.stdout();
    let count = streams::read_full(&mut rt.stdin(), &mut input);
    if let Err(refusal) = answer(&input[..count], &mut output) {
        refuse(refusal, &mut output);
    }
}
