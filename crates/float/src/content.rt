// Content: the slot where a search lands, and the question to a page that is lent.
ghost use Rattle.std.specs.Prelude.{◌≡◌, ℕ, slice_index_or, Float};
ghost use Rattle.float.specs.Bands.{none};
ghost use Rattle.float.specs.Page.{Page, page_of};
ghost use Rattle.float.specs.Slot.{content_at, beside_band, content_slot, content};

use crate::slot::{Insets, Sought};
use crate::{ContentSlot, FloatContext, Refusal, Segment, ask, number};

fn content_at(width: f32, band: Option<usize>, y: f32, i: Insets) -> ContentSlot
    ensures { (p : Page) → p.width ≡ width → result ≡ content_at p band y i }
{
    ContentSlot {
        band,
        x: i.left,
        y,
        width: width - i.left - i.right,
    }
}

// Each inset is the larger of the band's and the containing one.
fn beside_band(b: Segment, cb: Insets) -> Insets
    ensures { result ≡ beside_band b cb }
{
    Insets {
        left: number::larger(b.left, cb.left),
        right: number::larger(b.right, cb.right),
    }
}

// The content slot where s landed; b is read only where that is a band.
pub fn content_slot(width: f32, s: Sought, b: Segment, cb: Insets) -> ContentSlot
    ensures { (p : Page) → p.width ≡ width → ((i : ℕ) (y : Float) → s ≡ Sought.At i y → b ≡ slice_index_or p.bands i none) → result ≡ content_slot p cb s }
{
    match s {
        Sought::Quiet(y) => content_at(width, None, y, cb),
        Sought::Past(y) => content_at(width, None, y, cb),
        Sought::At(i, y) => {
            let at = number::larger(y, b.start);
            content_at(width, Some(i), at, beside_band(b, cb))
        }
    }
}

impl FloatContext {
    pub fn find_content_slot(
        &self,
        min_y: f32,
        left: f32,
        right: f32,
        clear: u8,
        after: Option<usize>,
    ) -> Result<ContentSlot, Refusal>
        ensures { result ≡ content (page_of self.now) (record { min_y = min_y; left = left; right = right; clear = clear; after = after }) }
    {
        let head = self.head();
        let q = ask::content_quest(head, min_y, left, right, clear, after)?;
        let (i, k) = ask::looked(q, &self.bands);
        let b = self.bands[i.min(95)];
        Ok(ask::content_found(head, q, i, k, b, left, right))
    }
}
