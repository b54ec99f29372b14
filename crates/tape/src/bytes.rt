// Numbers of a tape's bytes, little-endian, and floats as their bits.
ghost use Rattle.std.specs.Prelude.{◌≡◌, ◌+◌, ◌<◌, ◌≤◌, length};
ghost use Rattle.std.specs.Float.{binary32};
ghost use Rattle.std.specs.Float.Ieee.{of_bits, to_bits};
ghost use Rattle.tape.specs.Bytes.{u16_at, f32_at};

// Kept: std's `from_bits` and `to_bits` take no NaN.
// Any pattern: those of a NaN, which `from_bits` does not take, give the one NaN.
pub fn float_of(n: u32) -> f32
    ensures { result ≡ of_bits binary32 n }
{
    if n % 0x8000_0000 <= 0x7f80_0000 {
        f32::from_bits(n)
    } else {
        0.0 / 0.0
    }
}

pub fn bits_of(x: f32) -> u32
    ensures { result ≡ to_bits binary32 x }
{
    if x != x { 0x7fc0_0000 } else { f32::to_bits(x) }
}

pub fn u16_at(b: &[u8], i: usize) -> u16
    requires { i + 2 ≤ length b.now }
    ensures { result ≡ u16_at b.now i }
{
    u16::from_le_bytes([b[i], b[i + 1]])
}

pub fn f32_at(b: &[u8], i: usize) -> f32
    requires { i + 4 ≤ length b.now }
    ensures { result ≡ f32_at b.now i }
{
    float_of(u32::from_le_bytes([b[i], b[i + 1], b[i + 2], b[i + 3]]))
}
