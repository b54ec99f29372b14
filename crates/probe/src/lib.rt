// The leaves for tests: thin exports of the float crate's functions on numbers, 1 for true and 0 for false. Each takes any f32, a NaN too.
#![tactic(auto)]

ghost use Rattle.std.specs.Prelude.{◌≡◌};
ghost use Rattle.probe.specs.Truth.{bit, fits_at};
ghost use Rattle.probe.specs.Kept.{page_after, box_at};
ghost use Rattle.f32_laws.specs.Numbers.{larger, smaller, «zero+»};
ghost use Rattle.float.specs.Page.{fresh_context};
ghost use Rattle.float.specs.Place.{width_of};
ghost use Rattle.float.specs.Numbers.{most, least, plus_zero, finite, within, in_reach};

use float::fit::Ask;
use float::{FloatContext, FloatDirection};

#[tactic(auto, unfolding(crate::specs::Truth::bit))]
fn byte(b: bool) -> u8
    ensures { result ≡ bit b }
{
    b as u8
}

#[unsafe(no_mangle)]
pub extern "C" fn probe_larger(a: f32, b: f32) -> f32
    ensures { result ≡ larger a b }
{
    float::number::larger(a, b)
}

#[unsafe(no_mangle)]
pub extern "C" fn probe_smaller(a: f32, b: f32) -> f32
    ensures { result ≡ smaller a b }
{
    float::number::smaller(a, b)
}

#[unsafe(no_mangle)]
pub extern "C" fn probe_plus_zero(x: f32) -> f32
    ensures { result ≡ plus_zero x }
{
    float::number::plus_zero(x)
}

#[unsafe(no_mangle)]
pub extern "C" fn probe_finite(x: f32) -> u8
    ensures { result ≡ bit (finite x) }
{
    byte(float::number::finite(x))
}

#[unsafe(no_mangle)]
pub extern "C" fn probe_length_allowed(x: f32) -> u8
    ensures { result ≡ bit (within «zero+» most x) }
{
    byte(float::number::size_allowed(x))
}

#[unsafe(no_mangle)]
pub extern "C" fn probe_offset_allowed(x: f32) -> u8
    ensures { result ≡ bit (within least most x) }
{
    byte(float::number::offset_allowed(x))
}

#[unsafe(no_mangle)]
pub extern "C" fn probe_reach_allowed(x: f32) -> u8
    ensures { result ≡ bit (in_reach x) }
{
    byte(float::number::in_reach(x))
}

// The fit test of a box of this side beside a band: 2 for an unknown side. The height plays no part in it.
#[unsafe(no_mangle)]
pub extern "C" fn probe_fits(
    side: u8,
    width: f32,
    page: f32,
    band_left: f32,
    band_right: f32,
    inset_left: f32,
    inset_right: f32,
) -> u8
    ensures { result ≡ fits_at side width page band_left band_right inset_left inset_right }
{
    let Ok(side) = FloatDirection::try_from(side) else {
        return 2;
    };
    let (lead, trail, cb_lead, cb_trail) = match side {
        FloatDirection::Left => (band_left, band_right, inset_left, inset_right),
        FloatDirection::Right => (band_right, band_left, inset_right, inset_left),
    };
    let a = Ask {
        width,
        height: width,
        page,
        cb_lead,
        cb_trail,
        side,
    };
    byte(float::fit::fits(a, lead, trail))
}

// A fresh page of this width.
fn fresh(wide: f32) -> FloatContext
    ensures { result ≡ (width_of fresh_context wide).page }
{
    FloatContext::new().set_width(wide).page
}

// How far down the box `which` of a page stands, 0 if there is none.
fn top_of(page: FloatContext, which: usize) -> f32
    ensures { result ≡ (box_at page which).y }
{
    if which < 64 {
        return page.boxes[which].y;
    }
    0.0
}

// A page that is kept over some placements of a box, each `step` further down. What it gives is read from the page at the end.
#[unsafe(no_mangle)]
pub extern "C" fn probe_kept(
    count: usize,
    which: usize,
    wide: f32,
    side: u8,
    width: f32,
    height: f32,
    step: f32,
) -> f32
    ensures { result ≡ (box_at (page_after wide side width height step count) which).y }
{
    let mut page = fresh(wide);
    let mut top: f32 = 0.0;
    for _ in 0..count {
        page = page
            .place_floated_box(width, height, top, 0.0, 0.0, side, 0)
            .page;
        top += step;
    }
    top_of(page, which)
}

// The page after such placements by `place_in`: it stays where it lies. A box that is refused is passed over: the page stays as it was.
fn page_in(count: usize, wide: f32, side: u8, width: f32, height: f32, step: f32) -> FloatContext
    ensures { result ≡ page_after wide side width height step count }
{
    let mut page = fresh(wide);
    let mut top: f32 = 0.0;
    for _ in 0..count {
        let _ = page.place_in(width, height, top, 0.0, 0.0, side, 0);
        top += step;
    }
    page
}

// What `probe_kept` gives, of a page that is kept by `place_in`.
#[unsafe(no_mangle)]
pub extern "C" fn probe_kept_in(
    count: usize,
    which: usize,
    wide: f32,
    side: u8,
    width: f32,
    height: f32,
    step: f32,
) -> f32
    ensures { result ≡ (box_at (page_after wide side width height step count) which).y }
{
    let page = page_in(count, wide, side, width, height, step);
    top_of(page, which)
}
