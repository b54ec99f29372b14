// The run of a tape, record by record.
ghost use Rattle.std.specs.Prelude.{◌≡◌, ◌≤◌, length};
ghost use Rattle.tape.specs.Put.{Answered, Blank, Runs};
ghost use Rattle.tape.specs.Tape.{fresh_state, page_after};

use crate::line::Out;
use crate::record::{body_len, read_record};
use crate::step::State;

impl State {
    // Counts the bytes of the lines of a tape, and writes them where the room holds them. A broken record ends the tape.
    pub fn run(&mut self, tape: &[u8], answers: &mut [u8]) -> usize
        requires { (length tape.now ≤ 65536) × Blank self.old.page }
        ensures { Runs tape.now self.old answers.old answers.new self.new result }
    {
        let mut out = Out::new(answers);
        let mut at = 0;
        while at < tape.len() {
            let kind = tape[at];
            let Some(call) = read_record(kind, &tape[at + 1..]) else {
                out.number_line(b'T', at);
                return out.at;
            };
            self.step(call, &mut out);
            at += 1 + body_len(kind);
        }
        out.at
    }

    // The run of a tape whose lines are not asked for: over 65,536 bytes none is run.
    pub fn follow(&mut self, tape: &[u8])
        requires { Blank self.old.page }
        ensures { self.old ≡ fresh_state → self.new.page ≡ page_after tape.now }
    {
        if tape.len() <= 65536 {
            let mut none = [0u8; 1];
            self.run(tape, &mut none[..0]);
        }
    }
}

// Counts the bytes of a tape's lines, and writes them where the room holds them.
pub fn lines(tape: &[u8], answers: &mut [u8]) -> usize
    ensures { Answered tape.now answers.old answers.new result }
{
    if 65536 < tape.len() {
        let mut out = Out::new(answers);
        out.letter_line(b'L');
        return out.at;
    }
    State::new().run(tape, answers)
}
