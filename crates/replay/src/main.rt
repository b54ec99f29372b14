// Replays the stored answers: each tape on standard input is run, and its lines are held to those that stand there after it.
// The file stdin beside src/ has the lines that the crate gives: host/src/bin/answers.rs says how it is written.
#![tactic(auto)]

ghost use Rattle.std.specs.Prelude.{◌≡◌, ◌≤◌, length, IfOk, true};
ghost use Rattle.tape.specs.Tape.{lines_of};

use std::io::Read;
use std::rt::HostRuntime;

// The longest part, since a part's length is a u16.
const PART: usize = 65535;

// Why there is no part: the input is at its end, or breaks off.
#[derive(Clone, Copy)]
enum NoPart {
    End,
    Cut,
}

// Reads up to the end of the room, of the input, or to a read that fails, and answers how many bytes came.
// Kept: `bulameki` has to say why a read fails, and this takes it as the input's end.
fn read_full<R: Read>(from: &mut R, room: &mut [u8]) -> usize
    ensures { result ≤ length room.new }
{
    let mut n = 0;
    while n < room.len() {
        match from.read(&mut room[n..]) {
            Ok(more) if more > 0 => n += more,
            _ => break,
        }
    }
    n
}

// A part is its length, little-endian, and its bytes. Answers the length.
fn read_part<R: Read>(from: &mut R, part: &mut [u8]) -> Result<usize, NoPart>
    ensures { IfOk result (λ n. n ≤ length part.new) }
{
    let mut head = [0u8; 2];
    let got = read_full(from, &mut head);
    if got == 0 {
        return Err(NoPart::End);
    }
    if got < 2 {
        return Err(NoPart::Cut);
    }
    let n = part.len().min(u16::from_le_bytes(head) as usize);
    if read_full(from, &mut part[..n]) < n {
        return Err(NoPart::Cut);
    }
    Ok(n)
}

// True only where the lines that document 01 gives the tape are these: what agrees in a run agrees with the definition.
fn agrees(tape: &[u8], lines: &[u8], room: &mut [u8]) -> bool
    ensures { result ≡ true → lines_of tape.now ≡ lines.now }
{
    let written = tape::run_tape(tape, room);
    if written < 0 {
        return false;
    }
    let n = room.len().min(written as usize);
    check::same(&room[..n], lines)
}

// Whether the next tape agrees with its lines.
fn replay<R: Read>(from: &mut R) -> Result<bool, NoPart> {
    let mut tape = [0u8; PART];
    let n = read_part(from, &mut tape)?;
    let mut lines = [0u8; PART];
    let k = read_part(from, &mut lines).map_err(|_| NoPart::Cut)?;
    let mut room = [0u8; PART];
    Ok(agrees(&tape[..n], &lines[..k], &mut room))
}

// Nothing says that an input ends, so the turns are counted down from a number that no run uses up. Each piece of a line is a write of its own, and one that fails is passed over.
fn main(rt: HostRuntime) {
    let mut differ: u64 = 0;
    for tapes in 0..u64::MAX {
        match replay(&mut rt.stdin()) {
            Ok(true) => {}
            Ok(false) => {
                let _ = print!(rt; "tape ");
                let _ = print!(rt; "{tapes}");
                let _ = print!(rt; " differs\n");
                differ = differ.wrapping_add(1);
            }
            Err(NoPart::Cut) => {
                let _ = print!(rt; "tape ");
                let _ = print!(rt; "{tapes}");
                let _ = print!(rt; " breaks off\n");
                return;
            }
            Err(NoPart::End) => {
                let _ = print!(rt; "{tapes}");
                let _ = print!(rt; " tapes, ");
                let _ = print!(rt; "{differ}");
                let _ = print!(rt; " differ\n");
                return;
            }
        }
    }
}
