// What stands beside a line. The bands are lent as numbers, four for each: start, end, left and right inset.
ghost use Rattle.std.specs.Prelude.{◌≡◌, true, false, ◌&&◌, cond, ◌++◌, [], ◌∷◌, ◌+◌, ◌*◌, ◌≤◌, ◌<◌, suc, length, take, T};
ghost use Rattle.std.specs.Float.{inf};
ghost use Rattle.std.specs.Float.Ieee.{le, lt};
ghost use Rattle.float.specs.declared.Segment.{Segment as SegmentOf};
ghost use Rattle.float.specs.Bands.{last_end};
ghost use Rattle.float.specs.Numbers.{in_reach};
ghost use Rattle.words.specs.Lines.{joined as joined_with, span_over, next_start};
ghost use Rattle.words.specs.Laid.{bands_of, Fine, Rising, passed_by};

use float::Segment;
use float::number::larger;

// A line's two edges, as insets, and whether it touches a band.
#[derive(Clone, Copy)]
pub struct Span {
    pub left: f32,
    pub right: f32,
    pub beside: bool,
}

// The live bands of a page's array.
// Kept: float's method of this name is its own; made public it would be one promise more.
pub(crate) fn live(bands: &[Segment; 96], count: usize) -> &[Segment]
    ensures is { result.now ≡ take count bands.now }
    ensures few { length result.now ≤ 96 }
{
    &bands[..count.min(96)]
}

// Kept: bands as numbers in one slice, as `lay` and `set_beside` promise them to a holder; inside they are arrays of four.
// The numbers of the band i in their places, where there is room.
pub fn lay(bands: &mut [f32], i: usize, b: Segment)
    ensures { (length bands.new ≡ length bands.old) × (4 * suc i ≤ length bands.old → take (4 * suc i) bands.new ≡ take (4 * i) bands.old ++ b.start ∷ b.end ∷ b.left ∷ b.right ∷ []) }
{
    if bands.len() / 4 <= i {
        return;
    }
    let at = 4 * i;
    bands[at] = b.start;
    bands[at + 1] = b.end;
    bands[at + 2] = b.left;
    bands[at + 3] = b.right;
}

// Whether a band starts no higher than the one above it, and does not end above its own start.
fn follows(above: f32, start: f32, end: f32) -> bool
    ensures { result ≡ true → (s : SegmentOf) → s.start ≡ start → s.end ≡ end → Fine s × T (le above s.start) }
{
    (above <= start) & (start <= end)
}

// Whether each band follows the one above it. So it is on every page that calls reach.
pub(crate) fn rising(bands: &[[f32; 4]]) -> bool
    ensures { result ≡ true → Rising (inf true) (bands_of bands.now) }
{
    let mut above = f32::NEG_INFINITY;
    for [start, end, ..] in bands {
        if !follows(above, *start, *end) {
            return false;
        }
        above = *start;
    }
    true
}

// Kept: whether the bands rise is found once for all lines, and handed on with them.
// How many of the first bands end at or above y. Where the bands rise, no line further down needs to look at these.
pub(crate) fn passed(bands: &[[f32; 4]], sorted: bool, y: f32) -> usize
    ensures count { result ≡ passed_by sorted (bands_of bands.now) y }
    ensures few { result ≤ length bands.now }
{
    if !sorted {
        return 0;
    }
    for (i, [_, end, ..]) in bands.iter().enumerate() {
        if y < *end {
            return i;
        }
    }
    bands.len()
}

fn joined(e: Span, touches: bool, left: f32, right: f32) -> Span
    ensures { (s : SegmentOf) → s.left ≡ left → s.right ≡ right → result ≡ cond touches (joined_with e s) e }
{
    if !touches {
        return e;
    }
    Span {
        left: larger(e.left, left),
        right: larger(e.right, right),
        beside: true,
    }
}

// A line from y to bottom between these insets. Where the bands rise, none is touched after the first that starts at or below the bottom.
pub(crate) fn span_of(
    bands: &[[f32; 4]],
    sorted: bool,
    y: f32,
    bottom: f32,
    left: f32,
    right: f32,
) -> Span
    requires { (in_reach bottom ≡ true) × (sorted ≡ true → Rising (inf true) (bands_of bands.now)) }
    ensures { result ≡ span_over y bottom (record { left = left; right = right; beside = false }) (bands_of bands.now) }
{
    let mut e = Span {
        left,
        right,
        beside: false,
    };
    for [start, end, left, right] in bands {
        let starts = *start < bottom;
        if sorted & !starts {
            return e;
        }
        let touches = (y < *end) & starts;
        e = joined(e, touches, *left, *right);
    }
    e
}

// The next band start greater than y, z where there is none.
pub(crate) fn next_start(bands: &[[f32; 4]], y: f32, z: f32) -> f32
    ensures { result ≡ next_start y z (bands_of bands.now) }
{
    for [start, ..] in bands {
        if y < *start {
            return *start;
        }
    }
    z
}

// The last band's end, y where there is no band.
pub(crate) fn last_end(bands: &[[f32; 4]], y: f32) -> f32
    ensures { result ≡ last_end y (bands_of bands.now) }
{
    match bands {
        [.., [_, end, ..]] => *end,
        [] => y,
    }
}
