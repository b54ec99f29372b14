// Keeps one page where it lies: its width is set, two boxes are placed on it, a third is refused. Then it is asked.
#![tactic(auto)]

ghost use Rattle.std.specs.Prelude.{◌≡◌};
ghost use Rattle.float.specs.Place.{width_of};
ghost use Rattle.kept.specs.Keep.{kept_of};

use float::{ContentSlot, FloatContext, Position, Refusal};
use std::rt::HostRuntime;

// Kept: a call takes its codes as numbers.
// The codes of a call: the side of a box, and the sides that are cleared.
const LEFT: u8 = 0;

const RIGHT: u8 = 1;

const NEITHER: u8 = 0;

const RIGHTS: u8 = 2;

// The answers of three placements, and the page after them.
#[derive(Clone, Copy)]
pub struct Kept {
    pub left: Result<Position, Refusal>,
    pub right: Result<Position, Refusal>,
    pub refused: Result<Position, Refusal>,
    pub page: FloatContext,
}

// `set_width_in` and `place_in` change the page where it lies. The third box is too wide: the page stays as it was.
fn keep() -> Kept
    ensures { result ≡ kept_of }
{
    let mut page = FloatContext::new();
    let _ = page.set_width_in(320.0);
    let left = page.place_in(100.0, 50.0, 0.0, 0.0, 0.0, LEFT, NEITHER);
    let right = page.place_in(80.0, 30.0, 0.0, 0.0, 0.0, RIGHT, NEITHER);
    let refused = page.place_in(70000.0, 30.0, 0.0, 0.0, 0.0, LEFT, NEITHER);
    Kept {
        left,
        right,
        refused,
        page,
    }
}

// Each piece of a line is a write of its own, and one that fails is passed over; so with the next two.
fn print_placed(rt: &HostRuntime, name: &str, answer: Result<Position, Refusal>) {
    let _ = print!(rt; "{name}: ");
    match answer {
        Ok(Position { x, y, steps }) => {
            let _ = print!(rt; "x ");
            let _ = print!(rt; "{x}");
            let _ = print!(rt; ", y ");
            let _ = print!(rt; "{y}");
            let _ = print!(rt; ", steps ");
            let _ = print!(rt; "{steps}");
            let _ = print!(rt; "\n");
        }
        Err(_) => {
            let _ = print!(rt; "refused\n");
        }
    }
}

fn print_slot(rt: &HostRuntime, answer: Result<ContentSlot, Refusal>) {
    match answer {
        Ok(ContentSlot { x, y, width, .. }) => {
            let _ = print!(rt; "content: x ");
            let _ = print!(rt; "{x}");
            let _ = print!(rt; ", y ");
            let _ = print!(rt; "{y}");
            let _ = print!(rt; ", width ");
            let _ = print!(rt; "{width}");
            let _ = print!(rt; "\n");
        }
        Err(_) => {
            let _ = print!(rt; "content: refused\n");
        }
    }
}

fn print_bottom(rt: &HostRuntime, name: &str, bottom: Option<f32>) {
    let _ = print!(rt; "{name}: ");
    match bottom {
        Some(y) => {
            let _ = print!(rt; "y ");
            let _ = print!(rt; "{y}");
            let _ = print!(rt; "\n");
        }
        None => {
            let _ = print!(rt; "none\n");
        }
    }
}

fn main(rt: HostRuntime) {
    let Kept {
        left,
        right,
        refused,
        page,
    } = keep();
    print_placed(&rt, "left box", left);
    print_placed(&rt, "right box", right);
    print_placed(&rt, "third box", refused);
    print_slot(&rt, page.find_content_slot(0.0, 0.0, 0.0, NEITHER, None));
    match page.cleared_threshold(RIGHTS) {
        Ok(bottom) => print_bottom(&rt, "below the right box", bottom),
        Err(_) => {
            let _ = print!(rt; "below the right box: refused\n");
        }
    }
    print_bottom(&rt, "depth", page.depth());
}
