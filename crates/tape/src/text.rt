// A text set beside the page after a tape (4/14): it is read from its bytes, and its lines are printed.
ghost use Rattle.std.specs.Prelude.{◌≡◌, ◌+◌, ◌*◌, ◌≤◌, ◌<◌, length, take};
ghost use mathlib.Core.List.{List, [], ◌∷◌, flat_map, map};
ghost use Rattle.float.specs.Numbers.{plus_zero};
ghost use Rattle.float.specs.Page.{page_of};
ghost use Rattle.words.specs.Laid.{Judges};
ghost use Rattle.words.specs.Lines.{set_words};
ghost use Rattle.words.specs.Text.{check_of, cleaned};
ghost use Rattle.tape.specs.Bytes.{u16_at, f32_at, decimal, row};
ghost use Rattle.tape.specs.Put.{Stops};
ghost use Rattle.tape.specs.Tape.{page_after, returned, filled};
ghost use Rattle.tape.specs.Text.{floats_at, text_of, set_line, told_lines, words_after};

use crate::NO_ROOM;
use crate::bytes::{f32_at, u16_at};
use crate::line::{Out, count_decimals, text_number_of};
use crate::record::body_len;
use crate::step::State;
use float::number::{finite, plus_zero, size_allowed};
use words::check::{Judged, check_text};
use words::{Line, TextRefusal};

// Where a tape stops: the offset of its first broken record, or its length. No record is run.
fn stop_of(tape: &[u8]) -> usize
    ensures { Stops tape.now result }
{
    let mut at = 0;
    while at < tape.len() {
        let kind = tape[at];
        if 8 <= kind {
            return at;
        }
        let n = body_len(kind);
        if tape.len() - at <= n {
            return at;
        }
        at = at + 1 + n;
    }
    at
}

// Kept: a length first, then a writer, three times; as a closure each would need a contract as long as its body.
// The line of a letter alone, or nothing where the room is shorter.
fn told_letter(answers: &mut [u8], letter: u8) -> i64
    ensures { (result ≡ returned (row letter []) answers.old) × (answers.new ≡ filled (row letter []) answers.old) }
{
    if answers.len() < 2 {
        return NO_ROOM;
    }
    let mut out = Out::new(answers);
    out.letter_line(letter);
    out.at as i64
}

// The same of a letter and a number.
fn told_number(answers: &mut [u8], letter: u8, n: usize) -> i64
    ensures { (result ≡ returned (row letter (decimal n ∷ [])) answers.old) × (answers.new ≡ filled (row letter (decimal n ∷ [])) answers.old) }
{
    if answers.len() < 3 + count_decimals(n) {
        return NO_ROOM;
    }
    let mut out = Out::new(answers);
    out.number_line(letter, n);
    out.at as i64
}

// The bytes of a line of a text.
fn line_length(l: Line) -> usize
    ensures { (result ≡ length (set_line l)) × (result ≤ 64) }
{
    22 + count_decimals(l.first as usize) + count_decimals(l.count as usize)
}

// The same of the lines of a text: they are counted first.
fn told_lines(lines: &[Line], answers: &mut [u8]) -> i64
    requires { length lines.now ≤ 512 }
    ensures { (result ≡ returned (flat_map set_line lines.now) answers.old) × (answers.new ≡ filled (flat_map set_line lines.now) answers.old) }
{
    let mut need = 0;
    for l in lines {
        need += line_length(*l);
    }
    if answers.len() < need {
        return NO_ROOM;
    }
    let mut out = Out::new(answers);
    for l in lines {
        out.set_line(*l);
    }
    out.at as i64
}

// Kept: widths and figures are read at the places where document 02 puts them.
// The widths of n words.
fn read_widths(text: &[u8], n: usize, widths: &mut [f32])
    requires { (2 + 4 * n ≤ length text.now) × (n ≤ length widths.old) }
    ensures { take n widths.new ≡ floats_at n text.now 2 }
{
    for i in 0..n {
        widths[i] = f32_at(text, 2 + 4 * i);
    }
}

// Of more words than are set the widths are only judged.
fn judge_text(text: &[u8], n: usize) -> Judged
    requires { 2 + 4 * n ≤ length text.now }
    ensures { Judges (map plus_zero (floats_at n text.now 2)) n result }
{
    let mut all_finite = true;
    let mut all_allowed = true;
    for i in 0..n {
        let w = plus_zero(f32_at(text, 2 + 4 * i));
        all_finite = all_finite & finite(w);
        all_allowed = all_allowed & size_allowed(w);
    }
    Judged {
        finite: all_finite,
        allowed: all_allowed,
    }
}

// What stands after the widths of a text.
#[derive(Clone, Copy)]
pub struct Figures {
    pub gap: f32,
    pub height: f32,
    pub min_y: f32,
    pub left: f32,
    pub right: f32,
}

fn figures_at(text: &[u8], i: usize) -> Figures
    requires { i + 20 ≤ length text.now }
    ensures { result ≡ record { gap = f32_at text.now i; height = f32_at text.now (i + 4); min_y = f32_at text.now (i + 8); left = f32_at text.now (i + 12); right = f32_at text.now (i + 16) } }
{
    Figures {
        gap: f32_at(text, i),
        height: f32_at(text, i + 4),
        min_y: f32_at(text, i + 8),
        left: f32_at(text, i + 12),
        right: f32_at(text, i + 16),
    }
}

// A text of more words than are set is refused: here by which number.
fn refused_text(text: &[u8], n: usize) -> TextRefusal
    requires { (512 < n) × (n < 65536) × (n ≡ u16_at text.now 0) × (length text.now ≡ 22 + 4 * n) }
    ensures { check_of (cleaned (text_of text.now)) ≡ Err result }
{
    let judged = judge_text(text, n);
    let f = figures_at(text, 2 + 4 * n);
    let check = check_text(
        judged,
        n,
        plus_zero(f.gap),
        plus_zero(f.height),
        plus_zero(f.min_y),
        plus_zero(f.left),
        plus_zero(f.right),
    );
    match check {
        Ok(()) => TextRefusal::TooManyWords,
        Err(r) => r,
    }
}

// A text of n words, whole, on the page after a tape that does not stop. Kept out of line: what is told at once need not make room on the stack for a page and a text.
#[inline(never)]
fn set_text(tape: &[u8], text: &[u8], n: usize, answers: &mut [u8]) -> i64
    requires { (n < 65536) × (n ≡ u16_at text.now 0) × (length text.now ≡ 22 + 4 * n) }
    ensures { (result ≡ returned (told_lines (set_words (page_of (page_after tape.now)) (text_of text.now))) answers.old) × (answers.new ≡ filled (told_lines (set_words (page_of (page_after tape.now)) (text_of text.now))) answers.old) }
{
    if 512 < n {
        return told_number(answers, b'R', text_number_of(refused_text(text, n)));
    }
    let mut state = State::new();
    state.follow(tape);
    let mut widths = [0.0; 512];
    read_widths(text, n, &mut widths);
    let f = figures_at(text, 2 + 4 * n);
    let set = words::set_words(
        &state.page,
        &widths[..n],
        f.gap,
        f.height,
        f.min_y,
        f.left,
        f.right,
    );
    match &set {
        Ok(set) => {
            let lines = &set.lines[..set.count];
            told_lines(lines, answers)
        }
        Err(r) => told_number(answers, b'R', text_number_of(*r)),
    }
}

// The bytes written, or -13 where the room is shorter than the lines, and nothing is written.
pub fn set_words(tape: &[u8], text: &[u8], answers: &mut [u8]) -> i64
    ensures { (result ≡ returned (words_after tape.now text.now) answers.old) × (answers.new ≡ filled (words_after tape.now text.now) answers.old) }
{
    if 65536 < tape.len() {
        return told_letter(answers, b'L');
    }
    let stop = stop_of(tape);
    if stop < tape.len() {
        return told_number(answers, b'T', stop);
    }
    if text.len() < 22 {
        return told_number(answers, b'T', 0);
    }
    let n = u16_at(text, 0) as usize;
    if text.len() != 22 + 4 * n {
        return told_number(answers, b'T', 0);
    }
    set_text(tape, text, n, answers)
}
