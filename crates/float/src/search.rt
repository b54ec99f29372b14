// Rules 3 and 4: the search for a start and an end.
ghost use Rattle.std.specs.Prelude.{◌≡◌, ℕ, ◌≤◌, take};
ghost use Rattle.std.specs.Float.Ieee.{le};
ghost use Rattle.float.specs.Bands.{lead as lead_of, trail as trail_of, first_below};
ghost use Rattle.float.specs.Fit.{fits as fits_of};
ghost use Rattle.float.specs.Search.{joined as joined_of, opened as opened_of, taller as taller_of, search_from};

use crate::fit::Ask;
use crate::{FloatDirection, Segment, band, fit, number};

// The joined insets and the counted height.
#[derive(Clone, Copy)]
pub struct Reach {
    pub lead: f32,
    pub trail: f32,
    pub height: f64,
}

// What the search found: the start and the end band, the number of bands where there is none; y, the placed inset and the step count.
#[derive(Clone, Copy)]
pub struct Spot {
    pub start: usize,
    pub end: usize,
    pub y: f32,
    pub inset: f32,
    pub steps: usize,
}

// Kept: lead and trail are a match each; one made of the other needs the other side first.
pub fn lead_of(side: FloatDirection, b: Segment) -> f32
    ensures { result ≡ lead_of side b }
{
    match side {
        FloatDirection::Left => b.left,
        FloatDirection::Right => b.right,
    }
}

pub fn trail_of(side: FloatDirection, b: Segment) -> f32
    ensures { result ≡ trail_of side b }
{
    match side {
        FloatDirection::Left => b.right,
        FloatDirection::Right => b.left,
    }
}

fn start_fits(a: Ask, b: Segment) -> bool
    ensures { result ≡ fits_of a (lead_of a.side b) (trail_of a.side b) }
{
    fit::fits(a, lead_of(a.side, b), trail_of(a.side, b))
}

// The larger of each inset.
fn joined(side: FloatDirection, j: Reach, b: Segment) -> Reach
    ensures { result ≡ joined_of side j b }
{
    Reach {
        lead: number::larger(j.lead, lead_of(side, b)),
        trail: number::larger(j.trail, trail_of(side, b)),
        ..j
    }
}

// The start band counts from y on, and is joined from 0.
fn opened(side: FloatDirection, b: Segment, y: f32) -> Reach
    ensures { result ≡ opened_of side b y }
{
    let height = std::num::f32_to_f64_with_nan(b.end - y);
    joined(
        side,
        Reach {
            lead: 0.0,
            trail: 0.0,
            height,
        },
        b,
    )
}

// Each end but the start adds its height. The heights are f32, their sum is f64.
fn taller(j: Reach, b: Segment, same: bool) -> Reach
    ensures { result ≡ taller_of j b same }
{
    if same {
        return j;
    }
    let height = j.height + std::num::f32_to_f64_with_nan(b.end - b.start);
    Reach { height, ..j }
}

fn tall(a: Ask, j: Reach) -> bool
    ensures { result ≡ le a.height j.height }
{
    std::num::f32_to_f64_with_nan(a.height) <= j.height
}

// Rules 3 and 4: where the box goes, among the bands from f on, which are looked at and not changed. A start that is given up leaves the end where it was.
pub fn look(bands: &[Segment], f: usize, min_y: f32, ask: Ask) -> Spot
    ensures { result ≡ search_from bands.now ask (first_below bands.now f min_y) min_y }
{
    let n = bands.len();
    let first = band::first_below(bands, f, min_y);
    let mut start = first;
    let mut end = first;
    let mut y = min_y;
    let mut steps: usize = 0;
    let spot = 'outer: loop {
        if start >= n {
            break 'outer Spot {
                start,
                end,
                y,
                inset: ask.cb_lead,
                steps,
            };
        }
        let s = bands[start];
        if !start_fits(ask, s) {
            start += 1;
            end = end.max(start);
            steps += 1; // a start is given up
            continue 'outer;
        }
        y = number::larger(y, s.start);
        let mut reach = opened(ask.side, s, y);
        loop {
            if end >= n {
                let inset = fit::placed_at(ask, reach.lead);
                break 'outer Spot {
                    start,
                    end,
                    y,
                    inset,
                    steps,
                };
            }
            let b = bands[end];
            reach = joined(ask.side, reach, b);
            if !fit::fits(ask, reach.lead, reach.trail) {
                start += 1;
                end = end.max(start);
                steps += 1; // a start is given up
                continue 'outer;
            }
            reach = taller(reach, b, end == start);
            if !tall(ask, reach) {
                end += 1;
                steps += 1; // an end is given up
                continue;
            }
            let inset = fit::placed_at(ask, reach.lead);
            break 'outer Spot {
                start,
                end,
                y,
                inset,
                steps,
            };
        }
    };
    spot
}
