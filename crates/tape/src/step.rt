// What a run keeps between two records, and what a record does to it: the line that it prints is put out.
ghost use Rattle.std.specs.Prelude.{◌≡◌, ◌+◌, ◌≤◌, take};
ghost use Rattle.float.specs.Calculator.{add_check};
ghost use Rattle.float.specs.Page.{front, fresh_context};
ghost use Rattle.tape.specs.Put.{Blank, Line, Tells, reach};
ghost use Rattle.tape.specs.Tape.{fresh_state, start_of, not_added, result_line, step_of};

use crate::line::Out;
use crate::record::Record;
use float::{
    AvailableSpace, FloatContext, FloatIntrinsicWidthCalculator, PlacedFloatedBox, Refusal, Segment,
};

#[derive(Clone, Copy)]
pub struct State {
    pub page: FloatContext,
    pub calculator: Option<FloatIntrinsicWidthCalculator>,
}

// An unknown mode is refusal 1.
fn start_of(mode: Option<AvailableSpace>) -> Result<FloatIntrinsicWidthCalculator, Refusal>
    ensures { result ≡ start_of mode }
{
    match mode {
        Some(a) => FloatIntrinsicWidthCalculator::new(a),
        None => Err(Refusal::UnknownCode),
    }
}

// With no calculator the refusals 1 to 3 are those of a calculator of min-content, which gives no other.
fn not_added(width: f32, side: u8, clear: u8) -> Refusal
    ensures { result ≡ not_added (add_check width side clear) }
{
    match FloatIntrinsicWidthCalculator::new(AvailableSpace::MinContent) {
        Ok(c) => match c.add_float(width, side, clear).answer {
            Ok(()) => Refusal::NoCalculator,
            Err(n) => n,
        },
        Err(n) => n,
    }
}

fn result_line(calculator: Option<FloatIntrinsicWidthCalculator>, out: &mut Out)
    requires { out.old.at + 64 ≤ reach }
    ensures { Line out.old (result_line calculator) out.new }
{
    match calculator {
        Some(c) => out.width_line(c.result()),
        None => out.refused_line(Refusal::NoCalculator),
    }
}

// The bands of a fresh page: those past the count stand so already.
fn blank_bands(bands: &mut [Segment; 96], count: usize)
    requires { bands.old ≡ front (take count bands.old) fresh_context.bands }
    ensures { bands.new ≡ fresh_context.bands }
{
    bands[..count.min(96)].fill(Segment::default());
}

// And its boxes.
fn blank_boxes(boxes: &mut [PlacedFloatedBox; 64], count: usize)
    requires { boxes.old ≡ front (take count boxes.old) fresh_context.boxes }
    ensures { boxes.new ≡ fresh_context.boxes }
{
    boxes[..count.min(64)].fill(PlacedFloatedBox::default());
}

impl State {
    // A fresh page, no calculator.
    pub fn new() -> Self
        ensures { result ≡ fresh_state }
    {
        State {
            page: FloatContext::new(),
            calculator: None,
        }
    }

    // A fresh state where this one lies.
    fn renew(&mut self)
        requires { Blank self.old.page }
        ensures { self.new ≡ fresh_state }
    {
        blank_bands(&mut self.page.bands, self.page.count);
        blank_boxes(&mut self.page.boxes, self.page.box_count);
        self.page.width = 0.0;
        self.page.count = 0;
        self.page.box_count = 0;
        self.page.left_bottom = None;
        self.page.right_bottom = None;
        self.page.ceiling = None;
        self.page.depth = None;
        self.page.left_first = 0;
        self.page.right_first = 0;
        self.calculator = None;
    }

    // What a record does, and its line.
    pub fn step(&mut self, call: Record, out: &mut Out)
        requires { (out.old.at + 64 ≤ reach) × Blank self.old.page }
        ensures { Tells (step_of self.old call) self.new out.old out.new }
    {
        match call {
            Record::Fresh => {
                self.renew();
                out.letter_line(b'N');
            }
            Record::Width(w) => {
                let answer = self.page.set_width_in(w);
                out.done_line(b'W', answer);
            }
            Record::Place {
                side,
                clear,
                width,
                height,
                min_y,
                left,
                right,
            } => {
                let answer = self
                    .page
                    .place_in(width, height, min_y, left, right, side, clear);
                out.place_line(answer);
            }
            Record::Content {
                min_y,
                left,
                right,
                clear,
                after,
            } => {
                let answer = self
                    .page
                    .find_content_slot(min_y, left, right, clear, after);
                out.content_line(answer);
            }
            Record::Bfc {
                min_y,
                left,
                right,
                left_margin,
                right_margin,
                direction,
                clear,
                after,
            } => {
                let answer = self.page.find_bfc_slot(
                    min_y,
                    left,
                    right,
                    left_margin,
                    right_margin,
                    direction,
                    clear,
                    after,
                );
                out.bfc_line(answer);
            }
            Record::Start(mode) => match start_of(mode) {
                Ok(c) => {
                    self.calculator = Some(c);
                    out.letter_line(b'S');
                }
                Err(n) => out.refused_line(n),
            },
            Record::Add { width, side, clear } => match self.calculator {
                Some(c) => {
                    let added = c.add_float(width, side, clear);
                    self.calculator = Some(added.calculator);
                    out.done_line(b'A', added.answer);
                }
                None => out.refused_line(not_added(width, side, clear)),
            },
            Record::Result => result_line(self.calculator, out),
        }
    }
}
