// What is asked of the page after a tape, and returned to C.
ghost use Rattle.std.specs.Prelude.{◌≡◌};
ghost use Rattle.tape.specs.Tape.{returned_box, returned_height, innermost_after, depth_after};

use crate::bytes::bits_of;
use crate::line::number_of;
use crate::step::State;
use float::Refusal;

// Kept: numbers for none and for refusals, which C reads.
// What is returned where there is none.
const NONE: i64 = -100;

fn returned_box(a: Result<Option<u8>, Refusal>) -> i64
    ensures { result ≡ returned_box a }
{
    match a {
        Ok(Some(n)) => n as i64,
        Ok(None) => NONE,
        Err(n) => 0 - (number_of(n) as i64),
    }
}

fn returned_height(b: Option<f32>) -> i64
    ensures { result ≡ returned_height b }
{
    match b {
        Some(y) => bits_of(y) as i64,
        None => NONE,
    }
}

// The number of the box, -100 where none stands there, or -1 for an unknown side.
pub fn innermost(tape: &[u8], band: usize, side: u8) -> i64
    ensures { result ≡ innermost_after tape.now band side }
{
    let mut state = State::new();
    state.follow(tape);
    returned_box(state.page.innermost(Some(band), side))
}

// The 32 bits of the depth, or -100 where no box was accepted.
pub fn depth(tape: &[u8]) -> i64
    ensures { result ≡ depth_after tape.now }
{
    let mut state = State::new();
    state.follow(tape);
    returned_height(state.page.depth())
}
