// The boundary for C and Rust: the tape's run, questions on the page after it and a text set on it, on numbers and byte slices alone.
#![tactic(auto)]

ghost use Rattle.std.specs.Prelude.{◌≡◌};
ghost use Rattle.tape.specs.Tape.{lines_of, returned, filled, innermost_after, depth_after};
ghost use Rattle.tape.specs.Text.{words_after};

#[unsafe(no_mangle)]
pub extern "C" fn bulameki_run_tape(tape: &[u8], answers: &mut [u8]) -> i64
    ensures { (result ≡ returned (lines_of tape.now) answers.old) × (answers.new ≡ filled (lines_of tape.now) answers.old) }
{
    tape::run_tape(tape, answers)
}

#[unsafe(no_mangle)]
pub extern "C" fn bulameki_innermost(tape: &[u8], band: usize, side: u8) -> i64
    ensures { result ≡ innermost_after tape.now band side }
{
    tape::innermost(tape, band, side)
}

#[unsafe(no_mangle)]
pub extern "C" fn bulameki_depth(tape: &[u8]) -> i64
    ensures { result ≡ depth_after tape.now }
{
    tape::depth(tape)
}

#[unsafe(no_mangle)]
pub extern "C" fn bulameki_set_words(tape: &[u8], text: &[u8], answers: &mut [u8]) -> i64
    ensures { (result ≡ returned (words_after tape.now text.now) answers.old) × (answers.new ≡ filled (words_after tape.now text.now) answers.old) }
{
    tape::set_words(tape, text, answers)
}
