// The codes, and refusals 1 to 3, by what is handed in alone. Tests are joined by `&`, which branches nowhere.
ghost use Rattle.std.specs.Prelude.{◌≡◌, true, cond, if◌then◌else◌, ◌&&◌, [], ◌∷◌, nat_lt};
ghost use Rattle.float.specs.Numbers.{size, offset};
ghost use Rattle.float.specs.Refuse.{side_of, clear_of, direction_of, check_of};

use crate::number::{finite, offset_allowed, size_allowed};
use crate::{Clear, Direction, FloatDirection, Refusal};

// Kept: calls take their codes as numbers, since refusal 1 is theirs to give, and what each call answers to an unknown one is promised (`refused_exactly_when`).
// An unknown code is refusal 1.
impl TryFrom<u8> for FloatDirection {
    type Error = Refusal;

    fn try_from(code: u8) -> Result<Self, Refusal>
        ensures { result ≡ cond (nat_lt code 2) (Ok (side_of code)) (Err Refusal.UnknownCode) }
    {
        match code {
            0 => Ok(FloatDirection::Left),
            1 => Ok(FloatDirection::Right),
            _ => Err(Refusal::UnknownCode),
        }
    }
}

impl TryFrom<u8> for Clear {
    type Error = Refusal;

    fn try_from(code: u8) -> Result<Self, Refusal>
        ensures { result ≡ cond (nat_lt code 4) (Ok (clear_of code)) (Err Refusal.UnknownCode) }
    {
        match code {
            0 => Ok(Clear::None),
            1 => Ok(Clear::Left),
            2 => Ok(Clear::Right),
            3 => Ok(Clear::Both),
            _ => Err(Refusal::UnknownCode),
        }
    }
}

impl TryFrom<u8> for Direction {
    type Error = Refusal;

    fn try_from(code: u8) -> Result<Self, Refusal>
        ensures { result ≡ cond (nat_lt code 2) (Ok (direction_of code)) (Err Refusal.UnknownCode) }
    {
        match code {
            0 => Ok(Direction::Ltr),
            1 => Ok(Direction::Rtl),
            _ => Err(Refusal::UnknownCode),
        }
    }
}

// Of refusals 2 and 3 the lower is given: 2 over all numbers, then 3.
fn verdict(finite: bool, allowed: bool) -> Result<(), Refusal>
    ensures { result ≡ (if finite then (if allowed then Ok tt else Err Refusal.OutOfLimits) else Err Refusal.NotFinite) }
{
    if !finite {
        return Err(Refusal::NotFinite);
    }
    if !allowed {
        return Err(Refusal::OutOfLimits);
    }
    Ok(())
}

// Kept: one of these for each list of numbers, which only a call's own list could make one; a slice of them with their limits is longer.
// For a page width, or a definite available width.
pub fn check_size(x: f32) -> Result<(), Refusal>
    ensures { result ≡ check_of true (size x ∷ []) }
{
    verdict(finite(x), size_allowed(x))
}

// For a min_y alone.
pub fn check_offset(x: f32) -> Result<(), Refusal>
    ensures { result ≡ check_of true (offset x ∷ []) }
{
    verdict(finite(x), offset_allowed(x))
}

// For a float added to a calculator: the codes are 1 over both, before the numbers. The same of those below.
pub fn check_add(width: f32, side: u8, clear: u8) -> Result<(FloatDirection, Clear), Refusal>
    ensures { result ≡ elim (check_of (nat_lt side 2 && nat_lt clear 4) (size width ∷ [])) [ Ok _ ↦ Ok (side_of side, clear_of clear) | Err n ↦ Err n ] }
{
    let codes = (FloatDirection::try_from(side)?, Clear::try_from(clear)?);
    verdict(finite(width), size_allowed(width))?;
    Ok(codes)
}

// For a placement.
pub fn check_box(
    side: u8,
    clear: u8,
    width: f32,
    height: f32,
    min_y: f32,
    left: f32,
    right: f32,
) -> Result<(FloatDirection, Clear), Refusal>
    ensures { result ≡ elim (check_of (nat_lt side 2 && nat_lt clear 4) (size width ∷ size height ∷ offset min_y ∷ size left ∷ size right ∷ [])) [ Ok _ ↦ Ok (side_of side, clear_of clear) | Err n ↦ Err n ] }
{
    let codes = (FloatDirection::try_from(side)?, Clear::try_from(clear)?);
    verdict(
        finite(width) & (finite(height) & (finite(min_y) & (finite(left) & finite(right)))),
        size_allowed(width)
            & (size_allowed(height)
                & (offset_allowed(min_y) & (size_allowed(left) & size_allowed(right)))),
    )?;
    Ok(codes)
}

// For a content question.
pub fn check_content(clear: u8, min_y: f32, left: f32, right: f32) -> Result<Clear, Refusal>
    ensures { result ≡ elim (check_of (nat_lt clear 4) (offset min_y ∷ size left ∷ size right ∷ [])) [ Ok _ ↦ Ok (clear_of clear) | Err n ↦ Err n ] }
{
    let clear = Clear::try_from(clear)?;
    verdict(
        finite(min_y) & (finite(left) & finite(right)),
        offset_allowed(min_y) & (size_allowed(left) & size_allowed(right)),
    )?;
    Ok(clear)
}

// For a BFC question.
pub fn check_bfc(
    direction: u8,
    clear: u8,
    min_y: f32,
    left: f32,
    right: f32,
    left_margin: f32,
    right_margin: f32,
) -> Result<(Direction, Clear), Refusal>
    ensures { result ≡ elim (check_of (nat_lt direction 2 && nat_lt clear 4) (offset min_y ∷ size left ∷ size right ∷ offset left_margin ∷ offset right_margin ∷ [])) [ Ok _ ↦ Ok (direction_of direction, clear_of clear) | Err n ↦ Err n ] }
{
    let codes = (Direction::try_from(direction)?, Clear::try_from(clear)?);
    verdict(
        finite(min_y)
            & (finite(left) & (finite(right) & (finite(left_margin) & finite(right_margin)))),
        offset_allowed(min_y)
            & (size_allowed(left)
                & (size_allowed(right)
                    & (offset_allowed(left_margin) & offset_allowed(right_margin)))),
    )?;
    Ok(codes)
}
