// What a program prints: a text on standard output, or the line of a refusal on standard error. Programs
// work on texts, and leave the streams to this.
#![tactic(auto)]

ghost use Rattle.print.specs.Prints.{Prints};

use arrayvec::ArrayVec;
use sizes::Verdict;
use std::io::Write;
use text::write;
use text::write::LINE_MOST;

// Prints a text where there is nothing to refuse, and else the refusal. That a text could not be written,
// on a full disk say, is told on standard error and by no exit status.
pub fn print<O: Write, E: Write>(verdict: Verdict, text: &[u8], output: &mut O, errors: &mut E)
    ensures { Prints verdict text.now (O.contents output.old) (O.contents output.new) (E.contents errors.old) (E.contents errors.new) }
{
    match verdict {
        Err(refusal) => {
            let mut line = ArrayVec::<u8, LINE_MOST>::new();
            write::put_refused_at(&mut line, refusal.fault.number(), refusal.place);
            streams::write_all(errors, &line);
        }
        Ok(()) => {
            if !streams::write_all(output, text) {
                streams::write_all(errors, b"not written\n");
            }
        }
    }
}
