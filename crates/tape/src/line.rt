// Lines, put into the room where they are to stand: a field that the room does not hold is only counted.
// The longest line, of a BFC slot, has 59 bytes with a band number of 20 digits.
ghost use Rattle.std.specs.Prelude.{◌≡◌, [], ◌∷◌, ◌+◌, ◌<◌, ◌≤◌};
ghost use Rattle.float.specs.Refuse.{number_of};
ghost use Rattle.tape.specs.Bytes.{digit as digit_of, digits, float, decimals, decimal, row};
ghost use Rattle.tape.specs.Lines.{refused_line, done_line, place_line, band as band_text, content_line, bfc_line};
ghost use Rattle.words.specs.Text.{number_of as text_number_of};
ghost use Rattle.tape.specs.Put.{Puts, Line, reach};
ghost use Rattle.tape.specs.Text.{set_line};

use crate::bytes::bits_of;
use float::{BfcSlot, ContentSlot, Position, Refusal};
use words::TextRefusal;

const DIGITS: [u8; 16] = *b"0123456789ABCDEF";

fn digit(d: usize) -> u8
    requires { d < 16 }
    ensures { result ≡ digit_of d }
{
    DIGITS[d]
}

pub fn count_decimals(n: usize) -> usize
    ensures { (result ≡ decimals n n) × (result ≤ 20) }
{
    match n.checked_ilog10() {
        Some(k) => k as usize + 1,
        None => 1,
    }
}

// Kept: two enums, a cast each.
pub fn number_of(n: Refusal) -> usize
    ensures { result ≡ number_of n }
{
    n as usize
}

pub fn text_number_of(n: TextRefusal) -> usize
    ensures { result ≡ text_number_of n }
{
    n as usize
}

// Kept: lines are printed by hand, since their bytes are pinned one by one (`Line`), and std's `fmt` promises nothing of what it writes.
// A room that was lent, and the place in it where the next byte is to stand.
// Kept: a line asks for 64 bytes of reach and a field for its own, since the place moves in between.
#[derive(Drop)]
pub struct Out<'a> {
    room: &'a mut [u8],
    pub at: usize,
}

impl<'a> Out<'a> {
    pub fn new(room: &'a mut [u8]) -> Self
        ensures { (result.room.ghost_name ≡ room.entry.ghost_name) × (result.room.now ≡ room.old) × (result.at ≡ 0) }
    {
        Out { room, at: 0 }
    }

    fn put(&mut self, b: u8)
        requires { self.old.at < reach }
        ensures { Puts self.old (b ∷ []) self.new }
    {
        if self.at < self.room.len() {
            self.room[self.at] = b;
        }
        self.at += 1;
    }

    // The last digit first, from the back.
    fn digits(&mut self, base: usize, k: usize, n: usize)
        requires { (self.old.at + k ≤ reach) × (1 < base) × (base ≤ 16) }
        ensures { Puts self.old (digits base k n) self.new }
    {
        let at = self.at;
        self.at += k;
        if self.room.len() < self.at {
            return;
        }
        let mut m = n;
        for i in (0..k).rev() {
            self.room[at + i] = digit(m % base);
            m /= base;
        }
    }

    fn float(&mut self, x: f32)
        requires { self.old.at + 9 ≤ reach }
        ensures { (self.new.at ≡ self.old.at + 9) × Puts self.old (32 ∷ float x) self.new }
    {
        self.put(b' ');
        self.digits(16, 8, bits_of(x) as usize);
    }

    fn number(&mut self, n: usize)
        requires { self.old.at + 21 ≤ reach }
        ensures { (self.new.at ≤ self.old.at + 21) × Puts self.old (32 ∷ decimal n) self.new }
    {
        self.put(b' ');
        self.digits(10, count_decimals(n), n);
    }

    fn band(&mut self, b: Option<usize>)
        requires { self.old.at + 21 ≤ reach }
        ensures { (self.new.at ≤ self.old.at + 21) × Puts self.old (32 ∷ band_text b) self.new }
    {
        match b {
            None => {
                self.put(b' ');
                self.put(b'-');
            }
            Some(n) => self.number(n),
        }
    }

    // A line of a letter alone: N, W, S, A and L.
    pub fn letter_line(&mut self, letter: u8)
        requires { self.old.at + 64 ≤ reach }
        ensures { Line self.old (row letter []) self.new }
    {
        self.put(letter);
        self.put(b'\n');
    }

    // A line of a letter and a number: R and T.
    pub fn number_line(&mut self, letter: u8, n: usize)
        requires { self.old.at + 64 ≤ reach }
        ensures { Line self.old (row letter (decimal n ∷ [])) self.new }
    {
        self.put(letter);
        self.number(n);
        self.put(b'\n');
    }

    pub fn refused_line(&mut self, n: Refusal)
        requires { self.old.at + 64 ≤ reach }
        ensures { Line self.old (refused_line n) self.new }
    {
        self.number_line(b'R', number_of(n));
    }

    pub fn done_line(&mut self, letter: u8, answer: Result<(), Refusal>)
        requires { self.old.at + 64 ≤ reach }
        ensures { Line self.old (done_line letter answer) self.new }
    {
        match answer {
            Ok(()) => self.letter_line(letter),
            Err(n) => self.refused_line(n),
        }
    }

    pub fn width_line(&mut self, w: f32)
        requires { self.old.at + 64 ≤ reach }
        ensures { Line self.old (row 73 (float w ∷ [])) self.new }
    {
        self.put(b'I');
        self.float(w);
        self.put(b'\n');
    }

    pub fn place_line(&mut self, answer: Result<Position, Refusal>)
        requires { self.old.at + 64 ≤ reach }
        ensures { Line self.old (place_line answer) self.new }
    {
        match answer {
            Ok(p) => {
                self.put(b'P');
                self.float(p.x);
                self.float(p.y);
                self.number(p.steps);
                self.put(b'\n');
            }
            Err(n) => self.refused_line(n),
        }
    }

    pub fn content_line(&mut self, answer: Result<ContentSlot, Refusal>)
        requires { self.old.at + 64 ≤ reach }
        ensures { Line self.old (content_line answer) self.new }
    {
        match answer {
            Ok(s) => {
                self.put(b'C');
                self.band(s.band);
                self.float(s.x);
                self.float(s.y);
                self.float(s.width);
                self.put(b'\n');
            }
            Err(n) => self.refused_line(n),
        }
    }

    pub fn bfc_line(&mut self, answer: Result<BfcSlot, Refusal>)
        requires { self.old.at + 64 ≤ reach }
        ensures { Line self.old (bfc_line answer) self.new }
    {
        match answer {
            Ok(s) => {
                self.put(b'B');
                self.band(s.band);
                self.float(s.x);
                self.float(s.y);
                self.float(s.border_width);
                self.float(s.stretch_width);
                self.put(b'\n');
            }
            Err(n) => self.refused_line(n),
        }
    }

    pub fn set_line(&mut self, l: words::Line)
        requires { self.old.at + 64 ≤ reach }
        ensures { Line self.old (set_line l) self.new }
    {
        self.put(b'L');
        self.float(l.x);
        self.float(l.y);
        self.number(l.first as usize);
        self.number(l.count as usize);
        self.put(b'\n');
    }
}
