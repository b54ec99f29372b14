// Leaves on numbers: the larger and the smaller of two, plus zero for minus zero, and the table of limits.
ghost use Rattle.std.specs.Prelude.{◌≡◌};
ghost use Rattle.f32_laws.specs.Numbers.{larger as larger_of, smaller as smaller_of, «zero+»};
ghost use Rattle.float.specs.Numbers.{most, least, plus_zero, finite as finite_of, within, in_reach};

// The most that a size or an offset may be.
pub const MOST: f32 = 65536.0;

// The least that an offset may be.
pub const LEAST: f32 = -65536.0;

// The most that a bottom, a placed inset plus width or a calculator's sum may be.
pub const FARTHEST: f32 = 131072.0;

// Kept: these two and no `max` or `min`, since the definitions (`f32_laws`) say which is answered of two equal numbers and of a NaN.
pub fn larger(a: f32, b: f32) -> f32
    ensures { result ≡ larger_of a b }
{
    if a < b { b } else { a }
}

pub fn smaller(a: f32, b: f32) -> f32
    ensures { result ≡ smaller_of a b }
{
    if b < a { b } else { a }
}

// A minus zero handed in is read as plus zero.
pub fn plus_zero(x: f32) -> f32
    ensures { result ≡ plus_zero x }
{
    if x == 0.0 { 0.0 } else { x }
}

// Refusal 2 is given where this fails. A NaN fails both tests; the bits are those of plus infinity, which no literal writes.
pub fn finite(x: f32) -> bool
    ensures { result ≡ finite_of x }
{
    let infinity = f32::from_bits(0x7F80_0000);
    (-infinity < x) & (x < infinity)
}

// Kept: two tests in a line each; one over its bounds would need both at each call.
// Refusal 3 for widths, heights and insets.
pub fn size_allowed(x: f32) -> bool
    ensures { result ≡ within «zero+» most x }
{
    (0.0 <= x) & (x <= MOST)
}

// Refusal 3 for min_y and margins.
pub fn offset_allowed(x: f32) -> bool
    ensures { result ≡ within least most x }
{
    (LEAST <= x) & (x <= MOST)
}

// Refusal 6 is given where this fails.
pub fn in_reach(x: f32) -> bool
    ensures { result ≡ in_reach x }
{
    x <= FARTHEST
}
