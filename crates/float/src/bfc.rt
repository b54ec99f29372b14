// BFC: the slot where a search lands, and the question to a page that is lent.
ghost use Rattle.std.specs.Prelude.{◌≡◌, ℕ, if◌then◌else◌, slice_index_or, Float};
ghost use Rattle.std.specs.Float.{binary32};
ghost use Rattle.std.specs.Float.Ieee.{add};
ghost use Rattle.f32_laws.specs.Numbers.{larger as larger_of, smaller as smaller_of};
ghost use Rattle.float.specs.Bands.{none, last_end};
ghost use Rattle.float.specs.Page.{Page, page_of};
ghost use Rattle.float.specs.Slot.{beside_both, beside_none, bfc_at, bfc_slot, bfc};

use crate::slot::{Insets, Sought};
use crate::{BfcSlot, Direction, FloatContext, Refusal, Segment, ask, number};

// What a BFC question hands in: the containing insets, and the margin insets.
#[derive(Clone, Copy)]
pub struct BfcInsets {
    pub containing: Insets,
    pub margin: Insets,
}

// The insets of the border box and of the stretched box.
#[derive(Clone, Copy)]
pub struct BfcBoxes {
    pub border: Insets,
    pub stretch: Insets,
}

// A side's inset for the stretched box, and for the border box where the side leads: the margin inset, raised to the band's if marked.
fn stretch_inset(marked: bool, inset: f32, margin: f32) -> f32
    ensures { result ≡ (if marked then larger_of inset margin else margin) }
{
    if marked {
        number::larger(inset, margin)
    } else {
        margin
    }
}

// The trail side's inset for the border box: a margin there may only widen the room.
fn trail_inset(marked: bool, inset: f32, containing: f32, margin: f32) -> f32
    ensures { result ≡ (if marked then larger_of inset containing else smaller_of margin containing) }
{
    if marked {
        number::larger(inset, containing)
    } else {
        number::smaller(margin, containing)
    }
}

// A margin inset is containing inset plus margin.
pub fn bfc_insets(left: f32, right: f32, left_margin: f32, right_margin: f32) -> BfcInsets
    ensures { result ≡ record { containing = record { left = left; right = right }; margin = record { left = add binary32 left left_margin; right = add binary32 right right_margin } } }
{
    BfcInsets {
        containing: Insets { left, right },
        margin: Insets {
            left: left + left_margin,
            right: right + right_margin,
        },
    }
}

// Both boxes beside a band: the direction says which side leads.
fn beside_both(direction: Direction, b: Segment, i: BfcInsets) -> BfcBoxes
    ensures { result ≡ beside_both direction b i }
{
    let cb = i.containing;
    let m = i.margin;
    let stretch = Insets {
        left: stretch_inset(b.left_float, b.left, m.left),
        right: stretch_inset(b.right_float, b.right, m.right),
    };
    let border = match direction {
        Direction::Ltr => Insets {
            right: trail_inset(b.right_float, b.right, cb.right, m.right),
            ..stretch
        },
        Direction::Rtl => Insets {
            left: trail_inset(b.left_float, b.left, cb.left, m.left),
            ..stretch
        },
    };
    BfcBoxes { border, stretch }
}

// Without a band both use the margin insets.
fn beside_none(i: BfcInsets) -> BfcBoxes
    ensures { result ≡ beside_none i }
{
    BfcBoxes {
        border: i.margin,
        stretch: i.margin,
    }
}

fn bfc_at(width: f32, band: Option<usize>, y: f32, o: BfcBoxes) -> BfcSlot
    ensures { (p : Page) → p.width ≡ width → result ≡ bfc_at p band y o }
{
    BfcSlot {
        band,
        x: o.border.left,
        y,
        border_width: width - o.border.left - o.border.right,
        stretch_width: width - o.stretch.left - o.stretch.right,
    }
}

// The BFC slot where s landed; b is read only where that is a band, the last end only where it is past the last.
pub fn bfc_slot(
    width: f32,
    direction: Direction,
    s: Sought,
    b: Segment,
    end: f32,
    i: BfcInsets,
) -> BfcSlot
    ensures { (p : Page) → p.width ≡ width → ((k : ℕ) (y : Float) → s ≡ Sought.At k y → b ≡ slice_index_or p.bands k none) → ((y : Float) → s ≡ Sought.Past y → end ≡ last_end y p.bands) → result ≡ bfc_slot p direction i s }
{
    match s {
        Sought::Quiet(y) => bfc_at(width, None, y, beside_none(i)),
        Sought::Past(y) => {
            let below = number::larger(y, end);
            bfc_at(width, None, below, beside_none(i))
        }
        Sought::At(k, y) => {
            let at = number::larger(y, b.start);
            let boxes = beside_both(direction, b, i);
            bfc_at(width, Some(k), at, boxes)
        }
    }
}

impl FloatContext {
    pub fn find_bfc_slot(
        &self,
        min_y: f32,
        left: f32,
        right: f32,
        left_margin: f32,
        right_margin: f32,
        direction: u8,
        clear: u8,
        after: Option<usize>,
    ) -> Result<BfcSlot, Refusal>
        ensures { result ≡ bfc (page_of self.now) (record { min_y = min_y; left = left; right = right; left_margin = left_margin; right_margin = right_margin; direction = direction; clear = clear; after = after }) }
    {
        let head = self.head();
        let q = ask::bfc_quest(
            head,
            min_y,
            left,
            right,
            left_margin,
            right_margin,
            direction,
            clear,
            after,
        )?;
        let (i, k) = ask::looked(q, &self.bands);
        let b = self.bands[i.min(95)];
        let last = self.bands[q.n - q.n.min(1)];
        Ok(ask::bfc_found(
            head,
            q,
            i,
            k,
            b,
            last,
            left,
            right,
            left_margin,
            right_margin,
            direction,
        ))
    }
}
