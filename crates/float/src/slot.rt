// What both slot questions share: where a search lands, two insets, the first band number allowed; and whether floats are active.
ghost use Rattle.std.specs.Prelude.{◌≡◌, min};
ghost use Rattle.float.specs.Head.{head_of};
ghost use Rattle.float.specs.Page.{page_of, max_bands};
ghost use Rattle.float.specs.Slot.{from, has_active_floats};

use crate::{FloatContext, Refusal, band, number, refuse};

// Where a question lands, with its y: no band reaches below min_y, or a band, or past the last of them.
#[derive(Clone, Copy)]
pub enum Sought {
    Quiet(f32),
    At(usize, f32),
    Past(f32),
}

// A left and a right inset.
#[derive(Clone, Copy)]
pub struct Insets {
    pub left: f32,
    pub right: f32,
}

// The first band number allowed. Past the last band all numbers ask for the same, so none wraps.
pub fn first_allowed(after: Option<usize>) -> usize
    ensures { result ≡ min (from after) max_bands }
{
    match after {
        None => 0,
        Some(k) => k.min(95) + 1,
    }
}

impl FloatContext {
    pub fn has_active_floats(&self, min_y: f32) -> Result<bool, Refusal>
        ensures { result ≡ has_active_floats (page_of self.now) min_y }
    {
        let y = number::plus_zero(min_y);
        refuse::check_offset(y)?;
        let bands = self.live();
        Ok(band::first_below(bands, 0, y) < bands.len())
    }
}
