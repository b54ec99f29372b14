// Both slot questions in two phases, for a holder that keeps its page where it lies. First it asks what to look for, by the page's head;
// then it looks among its own bands, and hands over what it found. `find_content_slot` and `find_bfc_slot` are this on a page that is lent.
// The holder's two looks, of which the second is made only where the first found nothing:
//     i = the first of n bands, from `from` on, that ends below `above`, or n; k = the first, from 0 on, that ends below y, or n.
ghost use Rattle.std.specs.Prelude.{◌≡◌, ◌-◌, ◌≤◌, min, List, length, slice_index_or};
ghost use Rattle.float.specs.declared.PlacedFloatedBox.{PlacedFloatedBox};
ghost use Rattle.float.specs.declared.Segment.{Segment};
ghost use Rattle.float.specs.Bands.{none};
ghost use Rattle.float.specs.Head.{page_with};
ghost use Rattle.float.specs.Page.{page_of};
ghost use Rattle.float.specs.Quest.{quest_of, content_quest, bfc_quest, Asks, Found, landing};
ghost use Rattle.float.specs.Slot.{ContentCall, BfcCall, content, bfc};

use crate::slot::{Insets, Sought};
use crate::{
    BfcSlot, Clear, ContentSlot, Direction, Head, Refusal, Segment, band, bfc, clearing, content,
    number, refuse, slot,
};

// What to look for: n is at most 96, from at most n, and y is min_y.
#[derive(Clone, Copy)]
pub struct Quest {
    pub n: usize,
    pub from: usize,
    pub above: f32,
    pub y: f32,
}

fn quest_of(head: Head, clear: Clear, after: Option<usize>, y: f32) -> Quest
    ensures { (result.n ≤ 96) × (result.from ≤ result.n) × (result ≡ quest_of head clear after y) }
{
    let n = head.count.min(96);
    let cleared = clearing::cleared(head.left_bottom, head.right_bottom, clear);
    Quest {
        n,
        from: slot::first_allowed(after).min(n),
        above: clearing::raise_to(y, cleared),
        y,
    }
}

// Kept: two functions in each phase, since the questions have other numbers, checks and answers; what they share is `quest_of`, `looked` and `landed`.
// The first phase of a content question: its refusal is the question's.
pub fn content_quest(
    head: Head,
    min_y: f32,
    left: f32,
    right: f32,
    clear: u8,
    after: Option<usize>,
) -> Result<Quest, Refusal>
    ensures { Asks (λ p. content p (record { min_y = min_y; left = left; right = right; clear = clear; after = after })) (content_quest head (record { min_y = min_y; left = left; right = right; clear = clear; after = after })) result }
{
    let y = number::plus_zero(min_y);
    let clear = refuse::check_content(clear, y, number::plus_zero(left), number::plus_zero(right))?;
    Ok(quest_of(head, clear, after, y))
}

// The first phase of a BFC question.
pub fn bfc_quest(
    head: Head,
    min_y: f32,
    left: f32,
    right: f32,
    left_margin: f32,
    right_margin: f32,
    direction: u8,
    clear: u8,
    after: Option<usize>,
) -> Result<Quest, Refusal>
    ensures { Asks (λ p. bfc p (record { min_y = min_y; left = left; right = right; left_margin = left_margin; right_margin = right_margin; direction = direction; clear = clear; after = after })) (bfc_quest head (record { min_y = min_y; left = left; right = right; left_margin = left_margin; right_margin = right_margin; direction = direction; clear = clear; after = after })) result }
{
    let y = number::plus_zero(min_y);
    let (_, clear) = refuse::check_bfc(
        direction,
        clear,
        y,
        number::plus_zero(left),
        number::plus_zero(right),
        number::plus_zero(left_margin),
        number::plus_zero(right_margin),
    )?;
    Ok(quest_of(head, clear, after, y))
}

// Both looks among the bands, as a holder makes them.
pub(crate) fn looked(q: Quest, bands: &[Segment]) -> (usize, usize)
    requires { q.n ≤ length bands.now }
    ensures { Found bands.now q result.0 result.1 }
{
    let bands = &bands[..q.n];
    let i = band::first_below(bands, q.from, q.above);
    if i < q.n {
        return (i, q.n);
    }
    (i, band::first_below(bands, 0, q.y))
}

// Where the search lands. A band that was found ends below min_y too, so k is looked at only where there is none.
fn landed(q: Quest, i: usize, k: usize) -> Sought
    ensures { result ≡ landing q i k }
{
    if i < q.n {
        return Sought::At(i, q.above);
    }
    if k < q.n {
        return Sought::Past(q.above);
    }
    Sought::Quiet(q.y)
}

// The second phase of a content question: b is the band min i 95.
pub fn content_found(
    head: Head,
    q: Quest,
    i: usize,
    k: usize,
    b: Segment,
    left: f32,
    right: f32,
) -> ContentSlot
    ensures { (c : ContentCall) (bs : List Segment) (xs : List PlacedFloatedBox) → length bs ≡ 96 → content_quest head c ≡ Ok q → c.left ≡ left → c.right ≡ right → Found bs q i k → b ≡ slice_index_or bs (min i 95) none → content (page_of (page_with head bs xs)) c ≡ Ok result }
{
    let containing = Insets {
        left: number::plus_zero(left),
        right: number::plus_zero(right),
    };
    content::content_slot(head.width, landed(q, i, k), b, containing)
}

// The second phase of a BFC question: b is the band min i 95, last the band n - min n 1.
pub fn bfc_found(
    head: Head,
    q: Quest,
    i: usize,
    k: usize,
    b: Segment,
    last: Segment,
    left: f32,
    right: f32,
    left_margin: f32,
    right_margin: f32,
    direction: u8,
) -> BfcSlot
    ensures { (c : BfcCall) (bs : List Segment) (xs : List PlacedFloatedBox) → length bs ≡ 96 → bfc_quest head c ≡ Ok q → c.left ≡ left → c.right ≡ right → c.left_margin ≡ left_margin → c.right_margin ≡ right_margin → c.direction ≡ direction → Found bs q i k → b ≡ slice_index_or bs (min i 95) none → last ≡ slice_index_or bs (q.n - min q.n 1) none → bfc (page_of (page_with head bs xs)) c ≡ Ok result }
{
    let insets = bfc::bfc_insets(
        number::plus_zero(left),
        number::plus_zero(right),
        number::plus_zero(left_margin),
        number::plus_zero(right_margin),
    );
    // the first phase let its code through
    let direction = Direction::try_from(direction).unwrap_or(Direction::Rtl);
    bfc::bfc_slot(head.width, direction, landed(q, i, k), b, last.end, insets)
}
