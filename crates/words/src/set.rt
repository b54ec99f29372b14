// The lines of a text beside bands, which are lent as numbers.
ghost use Rattle.std.specs.Prelude.{◌≡◌, map, ◌≤◌, length};
ghost use Rattle.float.specs.Numbers.{plus_zero};
ghost use Rattle.words.specs.Text.{check_of};
ghost use Rattle.words.specs.Lines.{set_all, set_on, answered, handed, no_lines};
ghost use Rattle.words.specs.Laid.{read, bands_of};

use crate::beside::{last_end, next_start, passed, rising, span_of};
use crate::check::{check_text, judge_widths};
use crate::fill::take_words;
use crate::{Line, Lines, TextRefusal};
use float::number::{in_reach, larger, plus_zero};

// A place for lines, with none yet.
pub(crate) fn no_lines() -> Lines
    ensures { result ≡ no_lines }
{
    Lines {
        lines: [Line::default(); 512],
        count: 0,
    }
}

// The lines of a text that passed the check, into a lent place: its numbers have plus zero for minus zero, but for the widths.
// Words and bands that are done with are left behind: what is handed on is the rest of each list.
// Kept: cursors that move by what a turn took; the turns are the definition's, which out of turns refuses like out of reach.
// Kept: a text's numbers stand apart here, as in `set_beside`, whose numbers they are.
fn set_lines(
    set: &mut Lines,
    width: f32,
    bands: &[[f32; 4]],
    words: &[f32],
    gap: f32,
    height: f32,
    min_y: f32,
    left: f32,
    right: f32,
) -> Result<(), TextRefusal>
    requires passed { check_of (record { widths = map plus_zero words.now; gap = gap; height = height; min_y = min_y; left = left; right = right }) ≡ Ok tt }
    requires none { set.old ≡ no_lines }
    ensures { handed result set.new ≡ answered (set_all width (bands_of bands.now) (record { widths = map plus_zero words.now; gap = gap; height = height; min_y = min_y; left = left; right = right })) }
{
    let sorted = rising(bands);
    let mut below = bands;
    let mut rest = words;
    let mut first = 0;
    let mut y = min_y;
    let mut turns = bands.len() + words.len();
    while !rest.is_empty() {
        let bottom = y + height;
        if (turns == 0) | !in_reach(bottom) {
            return Err(TextRefusal::TooFar);
        }
        turns -= 1;
        let k = passed(below, sorted, y);
        below = &below[k..];
        let e = span_of(below, sorted, y, bottom, left, right);
        let n = take_words(rest, e, width - e.left - e.right, gap);
        if n == 0 {
            y = next_start(below, y, larger(y, last_end(bands, y)));
            continue;
        }
        set.lines[set.count] = Line {
            x: e.left,
            y,
            first: first as u16,
            count: n as u16,
        };
        set.count += 1;
        first += n;
        rest = &rest[n..];
        y = bottom;
    }
    Ok(())
}

// The lines of a text into a lent place that holds none: handed back by value they would be copied once more by each call on the way.
pub(crate) fn set_in(
    set: &mut Lines,
    width: f32,
    bands: &[f32],
    words: &[f32],
    gap: f32,
    line_height: f32,
    min_y: f32,
    left: f32,
    right: f32,
) -> Result<(), TextRefusal>
    requires { set.old ≡ no_lines }
    ensures { handed result set.new ≡ answered (set_on width (read bands.now) (record { widths = words.now; gap = gap; height = line_height; min_y = min_y; left = left; right = right })) }
{
    let g = plus_zero(gap);
    let h = plus_zero(line_height);
    let y = plus_zero(min_y);
    let l = plus_zero(left);
    let r = plus_zero(right);
    check_text(judge_widths(words), words.len(), g, h, y, l, r)?;
    let (bands, _) = bands.as_chunks();
    set_lines(set, width, bands, words, g, h, y, l, r)
}

// The same as `set_words`, for a holder that keeps its page in parts: the page's width, and its bands laid by `lay`.
pub fn set_beside(
    width: f32,
    bands: &[f32],
    words: &[f32],
    gap: f32,
    line_height: f32,
    min_y: f32,
    left: f32,
    right: f32,
) -> Result<Lines, TextRefusal>
    ensures { result ≡ answered (set_on width (read bands.now) (record { widths = words.now; gap = gap; height = line_height; min_y = min_y; left = left; right = right })) }
{
    let mut set = no_lines();
    set_in(
        &mut set,
        width,
        bands,
        words,
        gap,
        line_height,
        min_y,
        left,
        right,
    )?;
    Ok(set)
}
