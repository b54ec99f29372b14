// The fit test.
ghost use Rattle.std.specs.Prelude.{◌≡◌};
ghost use Rattle.float.specs.Fit.{passes as passes_of, placed_at, fits as fits_of};

use crate::{FloatDirection, number};

// What a place is asked for: the box, the page's width, the containing insets by lead and trail, and the box's side.
#[derive(Clone, Copy)]
pub struct Ask {
    pub width: f32,
    pub height: f32,
    pub page: f32,
    pub cb_lead: f32,
    pub cb_trail: f32,
    pub side: FloatDirection,
}

// By how much a box may reach too far and still fit.
const FIT_TOLERANCE: f32 = 0.001;

// One half of the test: an inset of 0 stands in no one's way.
fn passes(inset: f32, far: f32, page: f32, bound: f32) -> bool
    ensures { result ≡ passes_of inset far page bound }
{
    inset == 0.0 || far <= page - bound + FIT_TOLERANCE
}

// x of the paper: where the box would stand, by its lead side.
pub(crate) fn placed_at(a: Ask, lead: f32) -> f32
    ensures { result ≡ placed_at a lead }
{
    number::larger(lead, a.cb_lead)
}

// Past the trail inset's float; and inside the container, where a float leads.
pub fn fits(a: Ask, lead: f32, trail: f32) -> bool
    ensures { result ≡ fits_of a lead trail }
{
    let far = placed_at(a, lead) + a.width;
    passes(trail, far, a.page, trail) && passes(lead, far, a.page, a.cb_trail)
}
