// Which box stands innermost in a band, by the band's number, as both slot questions answer it. A holder that keeps its page where it lies asks `innermost_in` with the band that it reads.
ghost use Rattle.std.specs.Prelude.{◌≡◌, ◌<◌, min, List, [], length, take, if◌then◌else◌, nat_lt, slice_index_or};
ghost use Rattle.float.specs.declared.Segment.{Segment as SegmentOf};
ghost use Rattle.float.specs.Bands.{none};
ghost use Rattle.float.specs.Page.{Page, page_of};
ghost use Rattle.float.specs.Refuse.{check_of};
ghost use Rattle.float.specs.Slot.{recorded_on, innermost as innermost_of};

use crate::{FloatContext, FloatDirection, Refusal, Segment};

// A number stands only beside its mark; on a page made by hand it may stand alone.
fn beside(mark: bool, k: Option<u8>) -> Option<u8>
    ensures { result ≡ (if mark then k else None) }
{
    if mark {
        return k;
    }
    None
}

fn recorded_on(side: FloatDirection, b: Segment) -> Option<u8>
    ensures { result ≡ recorded_on side b }
{
    match side {
        FloatDirection::Left => beside(b.left_float, b.left_box),
        FloatDirection::Right => beside(b.right_float, b.right_box),
    }
}

// b is the band k, or any where there is none.
fn found(n: usize, k: usize, side: FloatDirection, b: Segment) -> Option<u8>
    ensures { (l : List SegmentOf) → length l ≡ n → (k < n → b ≡ slice_index_or l k none) → result ≡ recorded_on side (slice_index_or l k none) }
{
    if k < n {
        return recorded_on(side, b);
    }
    None
}

// The box in the band k of a page with so many bands: refusal 1. b is what stands at the place k of their array, or at the last where there is none.
pub fn innermost_in(count: usize, k: usize, b: Segment, side: u8) -> Result<Option<u8>, Refusal>
    ensures { (p : Page) (bs : List SegmentOf) → length bs ≡ 96 → p.bands ≡ take count bs → b ≡ slice_index_or bs (min k 95) none → result ≡ innermost_of p (Some k) side }
{
    let side = FloatDirection::try_from(side)?;
    Ok(found(count.min(96), k, side, b))
}

impl FloatContext {
    // The number of the box that stands innermost in a band on a side: refusal 1.
    pub fn innermost(&self, band: Option<usize>, side: u8) -> Result<Option<u8>, Refusal>
        ensures { result ≡ innermost_of (page_of self.now) band side }
    {
        match band {
            Some(k) => innermost_in(self.count, k, self.bands[k.min(95)], side),
            None => {
                FloatDirection::try_from(side)?;
                Ok(None)
            }
        }
    }
}
