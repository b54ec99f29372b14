// A fresh page, and what a page tells of its boxes.
ghost use Rattle.std.specs.Prelude.{◌≡◌, ◌≤◌, length};
ghost use Rattle.float.specs.Head.{head_of};
ghost use Rattle.float.specs.Page.{fresh_context, page_of};
ghost use Rattle.float.specs.Slot.{has_floats, depth_of, floats_of, list_of, of_side};

use crate::{FloatContext, FloatDirection, FloatList, Head, PlacedFloatedBox, Segment};

// The boxes of the side d, in their order.
fn of_side(boxes: &[PlacedFloatedBox], d: FloatDirection) -> FloatList
    requires { length boxes.now ≤ 64 }
    ensures { result ≡ list_of (of_side d boxes.now) }
{
    let mut out = [PlacedFloatedBox::default(); 64];
    let mut count = 0;
    for b in boxes {
        if b.side == d {
            out[count] = *b;
            count += 1;
        }
    }
    FloatList { boxes: out, count }
}

impl FloatContext {
    // A fresh page: width 0 and nothing else.
    pub fn new() -> Self
        ensures { result ≡ fresh_context }
    {
        FloatContext {
            width: 0.0,
            bands: [Segment::default(); 96],
            count: 0,
            boxes: [PlacedFloatedBox::default(); 64],
            box_count: 0,
            left_bottom: None,
            right_bottom: None,
            ceiling: None,
            depth: None,
            left_first: 0,
            right_first: 0,
        }
    }

    // Kept: field by field, here and in `set_head`, since a head is a struct of its own that holders keep.
    // The page without its arrays.
    pub fn head(&self) -> Head
        ensures { result ≡ head_of self.now }
    {
        Head {
            width: self.width,
            count: self.count,
            box_count: self.box_count,
            left_bottom: self.left_bottom,
            right_bottom: self.right_bottom,
            ceiling: self.ceiling,
            depth: self.depth,
            left_first: self.left_first,
            right_first: self.right_first,
        }
    }

    // Its bands: of a page made by hand that counts more than there are, all.
    pub(crate) fn live(&self) -> &[Segment]
        ensures { result.now ≡ (page_of self.now).bands }
    {
        &self.bands[..self.count.min(96)]
    }

    // Whether a box was accepted.
    pub fn has_floats(&self) -> bool
        ensures { result ≡ has_floats (page_of self.now) }
    {
        0 < self.box_count
    }

    // The largest bottom of the accepted boxes, none where there is none.
    pub fn depth(&self) -> Option<f32>
        ensures { result ≡ depth_of (page_of self.now) }
    {
        self.depth
    }

    fn floats(&self, side: FloatDirection) -> FloatList
        ensures { result ≡ floats_of side (page_of self.now) }
    {
        of_side(&self.boxes[..self.box_count.min(64)], side)
    }

    // Kept: both names are taffy's.
    // The accepted boxes of the left side.
    pub fn left_floats(&self) -> FloatList
        ensures { result ≡ floats_of FloatDirection.Left (page_of self.now) }
    {
        self.floats(FloatDirection::Left)
    }

    // The accepted boxes of the right side.
    pub fn right_floats(&self) -> FloatList
        ensures { result ≡ floats_of FloatDirection.Right (page_of self.now) }
    {
        self.floats(FloatDirection::Right)
    }
}
