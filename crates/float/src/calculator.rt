// The intrinsic width: new, add, result.
ghost use Rattle.std.specs.Prelude.{◌≡◌};
ghost use Rattle.float.specs.Calculator.{started_with, calculator_of, zeroed as zeroed_of, summed as summed_of, added_sums, added_widest, added as added_of, add_of, result_of};

use crate::{
    Added, AvailableSpace, Clear, FloatDirection, FloatIntrinsicWidthCalculator, Refusal, number,
    refuse,
};

// A cleared side's row of floats begins anew.
fn zeroed(clear: Clear, side: FloatDirection, sum: f32) -> f32
    ensures { result ≡ zeroed_of clear side sum }
{
    match (clear, side) {
        (Clear::Left, FloatDirection::Left) => 0.0,
        (Clear::Right, FloatDirection::Right) => 0.0,
        (Clear::Both, _) => 0.0,
        _ => sum,
    }
}

// The sums after the box, or refusal 6.
fn summed(c: FloatIntrinsicWidthCalculator, width: f32, left: f32, right: f32) -> Added
    ensures { result ≡ summed_of c width left right }
{
    let both = left + right;
    if number::in_reach(left) & number::in_reach(right) & number::in_reach(both) {
        Added {
            answer: Ok(()),
            calculator: FloatIntrinsicWidthCalculator {
                left_sum: left,
                right_sum: right,
                total: number::larger(c.total, both),
                widest: number::larger(c.widest, width),
                ..c
            },
        }
    } else {
        Added {
            answer: Err(Refusal::TooFar),
            calculator: c,
        }
    }
}

fn added_sums(
    c: FloatIntrinsicWidthCalculator,
    width: f32,
    side: FloatDirection,
    clear: Clear,
) -> Added
    ensures { result ≡ added_sums c width side clear }
{
    let left = zeroed(clear, FloatDirection::Left, c.left_sum);
    let right = zeroed(clear, FloatDirection::Right, c.right_sum);
    match side {
        FloatDirection::Left => summed(c, width, left + width, right),
        FloatDirection::Right => summed(c, width, left, right + width),
    }
}

fn added_widest(c: FloatIntrinsicWidthCalculator, width: f32) -> Added
    ensures { result ≡ added_widest c width }
{
    Added {
        answer: Ok(()),
        calculator: FloatIntrinsicWidthCalculator {
            total: number::larger(c.total, width),
            widest: number::larger(c.widest, width),
            ..c
        },
    }
}

fn added(c: FloatIntrinsicWidthCalculator, width: f32, side: FloatDirection, clear: Clear) -> Added
    ensures { result ≡ added_of c width side clear c.available }
{
    match c.available {
        AvailableSpace::MinContent => added_widest(c, width),
        AvailableSpace::MaxContent => added_sums(c, width, side, clear),
        AvailableSpace::Definite(_) => added_sums(c, width, side, clear),
    }
}

fn started(available: AvailableSpace) -> FloatIntrinsicWidthCalculator
    ensures { result ≡ started_with available }
{
    FloatIntrinsicWidthCalculator {
        available,
        left_sum: 0.0,
        right_sum: 0.0,
        total: 0.0,
        widest: 0.0,
    }
}

impl FloatIntrinsicWidthCalculator {
    // A definite width is a number handed in: refusals 2 and 3.
    pub fn new(available: AvailableSpace) -> Result<Self, Refusal>
        ensures { result ≡ calculator_of available }
    {
        let AvailableSpace::Definite(given) = available else {
            return Ok(started(available));
        };
        let width = number::plus_zero(given);
        refuse::check_size(width)?;
        Ok(started(AvailableSpace::Definite(width)))
    }

    pub fn add_float(self, width: f32, side: u8, clear: u8) -> Added
        ensures { result ≡ add_of self width side clear }
    {
        let width = number::plus_zero(width);
        match refuse::check_add(width, side, clear) {
            Ok((side, clear)) => added(self, width, side, clear),
            Err(no) => Added {
                answer: Err(no),
                calculator: self,
            },
        }
    }

    // Definite: the smaller of total and available, but never less than the widest.
    pub fn result(self) -> f32
        ensures { result ≡ result_of self }
    {
        match self.available {
            AvailableSpace::MinContent => self.total,
            AvailableSpace::MaxContent => self.total,
            AvailableSpace::Definite(width) => number::larger(
                number::smaller(self.total, width),
                self.widest,
            ),
        }
    }
}
