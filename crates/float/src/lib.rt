// The float-placement module: one page of floated boxes, the calls that change it and the calls that ask it.
// `set_width_in` and `place_in` change the page where it lies, `set_width` and `place_floated_box` are these by value, and a question borrows it; a refused call leaves the page as it was.
#![tactic(auto)]

pub mod ask;
mod band;
mod bfc;
mod calculator;
mod clearing;
mod content;
pub mod fit;
pub mod hold;
pub mod number;
mod page;
mod place;
mod plan;
mod refuse;
mod search;
mod slot;
pub mod touch;

// The side that a box floats to.
#[derive(Clone, Copy, Default, PartialEq, Eq)]
pub enum FloatDirection {
    #[default]
    Left,
    Right,
}

// The sides whose boxes a call must stand below.
#[derive(Clone, Copy)]
pub enum Clear {
    None,
    Left,
    Right,
    Both,
}

// The direction of the text.
#[derive(Clone, Copy)]
pub enum Direction {
    Ltr,
    Rtl,
}

// The width that a calculator is asked for.
#[derive(Clone, Copy)]
pub enum AvailableSpace {
    Definite(f32),
    MinContent,
    MaxContent,
}

// The reasons for which a call is refused, each with the paper's number.
#[derive(Clone, Copy, PartialEq, Eq, Debug)]
pub enum Refusal {
    UnknownCode = 1,
    NotFinite = 2,
    OutOfLimits = 3,
    WidthFixed = 4,
    BoxesFull = 5,
    TooFar = 6,
    BandsFull = 7,
    NoCalculator = 8,
    NoRoom = 13,
}

// Kept: a mark stands apart from its box's number, since on a page made by hand each may stand alone (`recorded_on`), and left and right apart, as the definitions name them (`on_side`).
// A band of the page: where it starts and ends, how far its two sides are taken, whether a float stands there, and which box was recorded there last.
#[derive(Clone, Copy, Default)]
pub struct Segment {
    pub start: f32,
    pub end: f32,
    pub left: f32,
    pub right: f32,
    pub left_float: bool,
    pub right_float: bool,
    pub left_box: Option<u8>,
    pub right_box: Option<u8>,
}

// An accepted box. Its inset is measured from the edge that it floats to.
#[derive(Clone, Copy, Default)]
pub struct PlacedFloatedBox {
    pub width: f32,
    pub height: f32,
    pub x_inset: f32,
    pub y: f32,
    pub side: FloatDirection,
}

// Kept: arrays with a count beside them, since there is no heap; what is kept of each side stands apart, as `Page` has it.
// A page: its bands from top to bottom, its boxes in the order of acceptance, and what is kept of them.
#[derive(Clone, Copy)]
pub struct FloatContext {
    pub width: f32,
    pub bands: [Segment; 96],
    pub count: usize,
    pub boxes: [PlacedFloatedBox; 64],
    pub box_count: usize,
    pub left_bottom: Option<f32>,
    pub right_bottom: Option<f32>,
    pub ceiling: Option<f32>,
    pub depth: Option<f32>,
    pub left_first: usize,
    pub right_first: usize,
}

// A page without its two arrays, for a holder that keeps those where they lie.
#[derive(Clone, Copy, Default)]
pub struct Head {
    pub width: f32,
    pub count: usize,
    pub box_count: usize,
    pub left_bottom: Option<f32>,
    pub right_bottom: Option<f32>,
    pub ceiling: Option<f32>,
    pub depth: Option<f32>,
    pub left_first: usize,
    pub right_first: usize,
}

// Where a box was placed, and the step count.
#[derive(Clone, Copy)]
pub struct Position {
    pub x: f32,
    pub y: f32,
    pub steps: usize,
}

// Kept: an answer and the page after it, of a call by value; a refusal hands back the very page (`place_of`). So with `Widened` (`width_of`) and `Added` (`add_of`).
// A placement's answer and the page after it.
#[derive(Clone, Copy)]
pub struct Placed {
    pub answer: Result<Position, Refusal>,
    pub page: FloatContext,
}

// The answer of setting the width, and the page after it.
#[derive(Clone, Copy)]
pub struct Widened {
    pub answer: Result<(), Refusal>,
    pub page: FloatContext,
}

// Kept: an array with a count, since there is no heap.
// The boxes of one side, in the order of acceptance, at the front of the array.
#[derive(Clone, Copy)]
pub struct FloatList {
    pub boxes: [PlacedFloatedBox; 64],
    pub count: usize,
}

// Where content goes beside the floats.
#[derive(Clone, Copy)]
pub struct ContentSlot {
    pub band: Option<usize>,
    pub x: f32,
    pub y: f32,
    pub width: f32,
}

// Where a box with a formatting context of its own goes beside the floats.
#[derive(Clone, Copy)]
pub struct BfcSlot {
    pub band: Option<usize>,
    pub x: f32,
    pub y: f32,
    pub border_width: f32,
    pub stretch_width: f32,
}

// The running sums of a row of floats: what is asked, the sum of each side, the largest total and the widest box.
#[derive(Clone, Copy)]
pub struct FloatIntrinsicWidthCalculator {
    pub available: AvailableSpace,
    pub left_sum: f32,
    pub right_sum: f32,
    pub total: f32,
    pub widest: f32,
}

// The answer of adding a float, and the calculator after it.
#[derive(Clone, Copy)]
pub struct Added {
    pub answer: Result<(), Refusal>,
    pub calculator: FloatIntrinsicWidthCalculator,
}
