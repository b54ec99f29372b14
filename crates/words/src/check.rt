// The refusals that are given before any line: 2 over all numbers, 3 over all, 9, 10.
ghost use Rattle.std.specs.Prelude.{◌≡◌, cond, List, map, Float, length};
ghost use Rattle.float.specs.Numbers.{plus_zero};
ghost use Rattle.words.specs.Text.{check_of};
ghost use Rattle.words.specs.Laid.{Judges};

use crate::TextRefusal;
use float::number::{finite, offset_allowed, plus_zero, size_allowed};

// Whether all of some numbers are finite, and all inside their limits.
#[derive(Clone, Copy)]
pub struct Judged {
    pub finite: bool,
    pub allowed: bool,
}

// Kept: `tape` judges the widths of a text too long to be set from its bytes (`judge_text`), for which there is no room as numbers.
// Of word widths, as many as there are.
pub(crate) fn judge_widths(words: &[f32]) -> Judged
    ensures { Judges (map plus_zero words.now) (length words.now) result }
{
    let mut judged = Judged {
        finite: true,
        allowed: true,
    };
    for word in words {
        let w = plus_zero(*word);
        judged.finite &= finite(w);
        judged.allowed &= size_allowed(w);
    }
    judged
}

// Of several the first in this order.
// Kept: beside float's, since a text has an enum of its own and two refusals more.
fn verdict(finite: bool, allowed: bool, few: bool, no_height: bool) -> Result<(), TextRefusal>
    ensures { result ≡ cond finite (cond allowed (cond few (cond no_height (Err TextRefusal.NoLineHeight) (Ok tt)) (Err TextRefusal.TooManyWords)) (Err TextRefusal.OutOfLimits)) (Err TextRefusal.NotFinite) }
{
    if !finite {
        return Err(TextRefusal::NotFinite);
    }
    if !allowed {
        return Err(TextRefusal::OutOfLimits);
    }
    if !few {
        return Err(TextRefusal::TooManyWords);
    }
    if no_height {
        return Err(TextRefusal::NoLineHeight);
    }
    Ok(())
}

// Of a text whose widths are judged: the other numbers have plus zero for minus zero.
pub fn check_text(
    widths: Judged,
    count: usize,
    gap: f32,
    height: f32,
    min_y: f32,
    left: f32,
    right: f32,
) -> Result<(), TextRefusal>
    ensures { (ws : List Float) → Judges ws count widths → result ≡ check_of (record { widths = ws; gap = gap; height = height; min_y = min_y; left = left; right = right }) }
{
    verdict(
        widths.finite
            & (finite(gap) & (finite(height) & (finite(min_y) & (finite(left) & finite(right))))),
        widths.allowed
            & (size_allowed(gap)
                & (size_allowed(height)
                    & (offset_allowed(min_y) & (size_allowed(left) & size_allowed(right))))),
        count <= 512,
        height == 0.0,
    )
}
