// Words set in lines around the floated boxes of a page: a crate above `float`, of which it sees the public calls, fields and definitions.
#![tactic(auto)]

mod beside;
pub mod check;
mod fill;
mod set;

ghost use Rattle.std.specs.Prelude.{◌≡◌};
ghost use Rattle.float.specs.Page.{page_of};
ghost use Rattle.words.specs.Lines.{set_words, answered};

pub use crate::beside::lay;
use crate::beside::live;
pub use crate::set::set_beside;
use crate::set::{no_lines, set_in};
use float::FloatContext;

// The reasons for which a text is refused, each with the paper's number.
#[derive(Clone, Copy, PartialEq, Eq, Debug)]
pub enum TextRefusal {
    NotFinite = 2,
    OutOfLimits = 3,
    TooFar = 6,
    TooManyWords = 9,
    NoLineHeight = 10,
}

// A line: its left edge, its top, the number of its first word counted from 0, and how many it has.
#[derive(Clone, Copy, Default)]
pub struct Line {
    pub x: f32,
    pub y: f32,
    pub first: u16,
    pub count: u16,
}

// Kept: an array with a count, since there is no heap.
// The lines of a text from the top down, at the front of the array.
#[derive(Clone, Copy)]
pub struct Lines {
    pub lines: [Line; 512],
    pub count: usize,
}

// Sets words of these widths in lines, the first no higher than min_y.
pub fn set_words(
    page: &FloatContext,
    words: &[f32],
    gap: f32,
    line_height: f32,
    min_y: f32,
    left: f32,
    right: f32,
) -> Result<Lines, TextRefusal>
    ensures { result ≡ answered (set_words (page_of page.now) (record { widths = words.now; gap = gap; height = line_height; min_y = min_y; left = left; right = right })) }
{
    let live = live(&page.bands, page.count);
    let mut bands = [0.0; 384];
    for (i, b) in live.iter().enumerate() {
        lay(&mut bands, i, *b);
    }
    let mut set = no_lines();
    set_in(
        &mut set,
        page.width,
        &bands[..4 * live.len()],
        words,
        gap,
        line_height,
        min_y,
        left,
        right,
    )?;
    Ok(set)
}
