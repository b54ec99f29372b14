// Clearing: the bottoms that a clear asks for. A page is not handed over: its two sides are.
ghost use Rattle.std.specs.Prelude.{◌≡◌};
ghost use Rattle.float.specs.Page.{Page, page_of};
ghost use Rattle.float.specs.Slot.{cleared_threshold};
ghost use Rattle.float.specs.Clear.{lower as lower_of, raise_to, cleared as cleared_of};

use crate::{Clear, FloatContext, Refusal, number};

pub fn lower(a: Option<f32>, b: Option<f32>) -> Option<f32>
    ensures { result ≡ lower_of a b }
{
    match (a, b) {
        (None, _) => b,
        (_, None) => a,
        (Some(x), Some(y)) => Some(number::larger(x, y)),
    }
}

pub fn raise_to(y: f32, b: Option<f32>) -> f32
    ensures { result ≡ raise_to y b }
{
    match b {
        None => y,
        Some(x) => number::larger(y, x),
    }
}

pub fn cleared(left: Option<f32>, right: Option<f32>, clear: Clear) -> Option<f32>
    ensures { (p : Page) → p.left_bottom ≡ left → p.right_bottom ≡ right → result ≡ cleared_of p clear }
{
    match clear {
        Clear::None => None,
        Clear::Left => left,
        Clear::Right => right,
        Clear::Both => lower(left, right),
    }
}

impl FloatContext {
    pub fn cleared_threshold(&self, clear: u8) -> Result<Option<f32>, Refusal>
        ensures { result ≡ cleared_threshold (page_of self.now) clear }
    {
        let clear = Clear::try_from(clear)?;
        Ok(cleared(self.left_bottom, self.right_bottom, clear))
    }
}
