// The tape of calls: a tape's records are read, run on a page and a calculator, and each prints its line.
#![tactic(auto)]

mod after;
mod bytes;
mod line;
mod record;
mod run;
mod step;
mod text;

ghost use Rattle.std.specs.Prelude.{◌≡◌};
ghost use Rattle.tape.specs.Put.{Roomy};
ghost use Rattle.tape.specs.Tape.{lines_of, returned, filled};

pub use crate::after::{depth, innermost};
use crate::run::lines;
pub use crate::text::set_words;

// Kept: an i64 is the bytes written or a refusal below 0, as C reads it, here and in what `set_words` calls (their contracts are `returned`); so with `depth` and `innermost`.
// What is returned where the room is short: minus the number of the refusal.
const NO_ROOM: i64 = -13;

// The lines into a room that takes them. The test never fails where the tape holds still: one that changes during the call may count more.
fn written(tape: &[u8], answers: &mut [u8]) -> i64
    requires { Roomy tape.now answers.old }
    ensures { (result ≡ returned (lines_of tape.now) answers.old) × (answers.new ≡ filled (lines_of tape.now) answers.old) }
{
    let count = lines(tape, answers);
    if answers.len() < count {
        return NO_ROOM;
    }
    count as i64
}

// The bytes written, or -13 where the room is shorter than the lines, and nothing is written.
// No line has more than eleven bytes for each byte of its record: with that much room nothing is counted first.
pub fn run_tape(tape: &[u8], answers: &mut [u8]) -> i64
    ensures { (result ≡ returned (lines_of tape.now) answers.old) × (answers.new ≡ filled (lines_of tape.now) answers.old) }
{
    if tape.len() <= answers.len() / 11 {
        return written(tape, answers);
    }
    let need = lines(tape, &mut answers[..0]);
    if answers.len() < need {
        return NO_ROOM;
    }
    written(tape, answers)
}
