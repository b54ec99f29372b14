// Placing in two phases, for a holder that keeps its page where it lies: the page's head, its bands and its boxes stay the holder's, and nothing is written before the yes.
// The holder asks `admit`, hands `look` its bands, walks the end back as far as `stop_of` says, and asks `enter` with the three bands that it reads there.
// Where that accepts, each band j from plan.high down to plan.low becomes `shaped` of the band `source` says, the box goes to the place box_count, and the head is the new one.
ghost use Rattle.std.specs.Prelude.{◌≡◌, ◌-◌, ◌<◌, ◌≤◌, min, List, length, take, slice_index_or};
ghost use Rattle.float.specs.declared.PlacedFloatedBox.{PlacedFloatedBox as BoxOf};
ghost use Rattle.float.specs.declared.Segment.{Segment as SegmentOf};
ghost use Rattle.float.specs.Bands.{none, first_below};
ghost use Rattle.float.specs.Head.{page_with};
ghost use Rattle.float.specs.Hold.{Widens, head_after, entered_of, Admits, WalkedBack, Enters};
ghost use Rattle.float.specs.Place.{Call};
ghost use Rattle.float.specs.Plan.{source as source_of, shaped as shaped_of};
ghost use Rattle.float.specs.Search.{search_from};

use crate::fit::Ask;
pub use crate::plan::Plan;
use crate::plan::Site;
pub use crate::search::{Spot, look};
use crate::{
    FloatDirection, Head, PlacedFloatedBox, Position, Refusal, Segment, band, clearing, number,
    place, plan, refuse, search,
};

// What is asked of a place, the number n of bands, at most 96, the first band allowed and y.
#[derive(Clone, Copy)]
pub struct Admission {
    pub ask: Ask,
    pub n: usize,
    pub first: usize,
    pub y: f32,
}

// The position, the head after it, the plan of the bands and the box.
#[derive(Clone, Copy)]
pub struct Entry {
    pub position: Position,
    pub head: Head,
    pub plan: Plan,
    pub floated: PlacedFloatedBox,
}

// The head with this width, of a page without boxes: refusals 2, 3 and 4.
pub fn widen(head: Head, width: f32) -> Result<Head, Refusal>
    ensures { (bs : List SegmentOf) (xs : List BoxOf) → length bs ≡ 96 → length xs ≡ 64 → Widens head bs xs width result }
{
    let w = number::plus_zero(width);
    refuse::check_size(w)?;
    if 0 < head.box_count {
        return Err(Refusal::WidthFixed);
    }
    Ok(Head {
        width: w,
        count: head.count.min(96),
        ..head
    })
}

// Refusals 1, 2, 3 and 5, then rules 1 and 2.
pub fn admit(
    head: Head,
    width: f32,
    height: f32,
    min_y: f32,
    left: f32,
    right: f32,
    side: u8,
    clear: u8,
) -> Result<Admission, Refusal>
    ensures { Admits head (record { side = side; clear = clear; width = width; height = height; min_y = min_y; left = left; right = right }) result }
{
    let w = number::plus_zero(width);
    let h = number::plus_zero(height);
    let m = number::plus_zero(min_y);
    let l = number::plus_zero(left);
    let r = number::plus_zero(right);
    let (side, clear) = refuse::check_box(side, clear, w, h, m, l, r)?;
    if 64 <= head.box_count {
        return Err(Refusal::BoxesFull);
    }
    let top = clearing::raise_to(m, head.ceiling);
    let cleared = clearing::cleared(head.left_bottom, head.right_bottom, clear);
    Ok(Admission {
        ask: place::ask_of(w, h, head.width, l, r, side),
        n: head.count.min(96),
        first: head.left_first.max(head.right_first),
        y: clearing::raise_to(top, cleared),
    })
}

// Rule 7: how far the end may walk back, which past the last band it does not.
// Kept: for a holder that walks its own bands back; `walked_back` tests this on the way.
pub fn stop_of(n: usize, spot: Spot) -> usize
    ensures { (spot.end < n → result ≡ spot.start) × (n ≤ spot.end → result ≡ spot.end) }
{
    if spot.end < n {
        return spot.start;
    }
    spot.end
}

// What every accepted box does to the head.
fn head_after(head: Head, a: Ask, p: Plan) -> Head
    ensures { result ≡ head_after head a p }
{
    let bottom = p.y + a.height;
    Head {
        width: head.width,
        count: p.count,
        box_count: head.box_count.min(63) + 1,
        left_bottom: place::bottom_after(a.side, FloatDirection::Left, head.left_bottom, bottom),
        right_bottom: place::bottom_after(a.side, FloatDirection::Right, head.right_bottom, bottom),
        ceiling: clearing::lower(head.ceiling, Some(p.y)),
        depth: clearing::lower(head.depth, Some(bottom)),
        left_first: place::number_after(a.side, FloatDirection::Left, head.left_first, p.first),
        right_first: place::number_after(a.side, FloatDirection::Right, head.right_first, p.first),
    }
}

// Refusals 6 and 7, then the answer, the box and the head after it.
fn entered(head: Head, a: Ask, spot: Spot, p: Plan) -> Result<Entry, Refusal>
    ensures { result ≡ entered_of head a spot p }
{
    if !place::near(a, spot.inset, p.y) {
        return Err(Refusal::TooFar);
    }
    if p.count > 96 {
        return Err(Refusal::BandsFull);
    }
    Ok(Entry {
        position: Position {
            x: place::x_of(a, spot.inset),
            y: p.y,
            steps: spot.steps,
        },
        head: head_after(head, a, p),
        plan: p,
        floated: place::box_of(a, spot.inset, p.y),
    })
}

// Rules 5 to 8 and refusals 6 and 7, as numbers: e is the end walked back; last, first and end are the bands at n - 1, at the start and at e.
pub fn enter(
    head: Head,
    adm: Admission,
    spot: Spot,
    e: usize,
    last: Segment,
    first: Segment,
    end: Segment,
) -> Result<Entry, Refusal>
    ensures { (c : Call) (bs : List SegmentOf) (xs : List BoxOf) → length bs ≡ 96 → length xs ≡ 64 → Admits head c (Ok adm) → spot ≡ search_from (take adm.n bs) adm.ask (first_below (take adm.n bs) adm.first adm.y) adm.y → WalkedBack (take adm.n bs) adm.ask spot e → last ≡ slice_index_or bs (adm.n - min adm.n 1) none → first ≡ slice_index_or bs (min spot.start 95) none → end ≡ slice_index_or bs (min e 95) none → Enters bs xs head c adm.ask result }
{
    let a = adm.ask;
    let n = adm.n.min(96);
    if a.height == 0.0 {
        return entered(head, a, spot, Plan::still(n, spot));
    }
    let z = band::last_end(n, last);
    let number = head.box_count.min(63) as u8;
    let site = Site {
        n,
        z,
        ask: a,
        spot,
        number,
    };
    entered(head, a, spot, site.plan(e.min(95), first, end))
}

// The old band of which the new band j is made.
pub fn source(p: Plan, j: usize) -> usize
    ensures { (result ≡ source_of p j) × (result ≤ j) }
{
    let k = plan::unsplit(p.splits, p.last, j);
    plan::unsplit(p.cut, p.low, k)
}

// The new band j, made of the band b. Those past the parts of the last are only moved.
pub fn shaped(p: Plan, a: Ask, j: usize, b: Segment) -> Segment
    ensures { result ≡ shaped_of a p j b }
{
    if j > p.rest {
        return b;
    }
    let k = plan::unsplit(p.splits, p.last, j);
    let upper = plan::part(p.cut, p.low, p.y, k, b);
    let lower = plan::part(p.splits, p.last, p.bottom, j, upper);
    let t = p.filled(a, j, lower);
    p.inked(a, j, t)
}
