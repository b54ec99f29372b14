// The records of a tape. A body is read as the part of the tape that begins after its kind.
ghost use Rattle.std.specs.Prelude.{◌≡◌, ◌+◌, ◌<◌, ◌≤◌, length};
ghost use Rattle.tape.specs.Record.{body_len, after_at, record_of, read_of};

use crate::bytes::{f32_at, u16_at};
use float::AvailableSpace;

// A record, by its kind.
#[derive(Clone, Copy)]
pub enum Record {
    Fresh,
    Width(f32),
    Place {
        side: u8,
        clear: u8,
        width: f32,
        height: f32,
        min_y: f32,
        left: f32,
        right: f32,
    },
    Content {
        min_y: f32,
        left: f32,
        right: f32,
        clear: u8,
        after: Option<usize>,
    },
    Bfc {
        min_y: f32,
        left: f32,
        right: f32,
        left_margin: f32,
        right_margin: f32,
        direction: u8,
        clear: u8,
        after: Option<usize>,
    },
    Start(Option<AvailableSpace>),
    Add {
        width: f32,
        side: u8,
        clear: u8,
    },
    Result,
}

// Kept: a body's length stands in a table, its kind is a number and its numbers are at fixed places, as document 01 lists them; codes stay numbers, since an unknown one is the call's refusal.
const BODY_LENS: [usize; 8] = [0, 4, 22, 15, 24, 5, 6, 0];

// An unknown kind has no body.
pub fn body_len(kind: u8) -> usize
    ensures { result ≡ body_len kind }
{
    let k = kind as usize;
    if k < 8 { BODY_LENS[k] } else { 0 }
}

fn after_at(b: &[u8], i: usize) -> Option<usize>
    requires { i + 2 ≤ length b.now }
    ensures { result ≡ after_at b.now i }
{
    let n = u16_at(b, i);
    if n == 65535 { None } else { Some(n as usize) }
}

fn read_width(b: &[u8]) -> Record
    requires { 4 ≤ length b.now }
    ensures { result ≡ record_of 1 b.now }
{
    Record::Width(f32_at(b, 0))
}

fn read_place(b: &[u8]) -> Record
    requires { 22 ≤ length b.now }
    ensures { result ≡ record_of 2 b.now }
{
    Record::Place {
        side: b[0],
        clear: b[1],
        width: f32_at(b, 2),
        height: f32_at(b, 6),
        min_y: f32_at(b, 10),
        left: f32_at(b, 14),
        right: f32_at(b, 18),
    }
}

fn read_content(b: &[u8]) -> Record
    requires { 15 ≤ length b.now }
    ensures { result ≡ record_of 3 b.now }
{
    Record::Content {
        min_y: f32_at(b, 0),
        left: f32_at(b, 4),
        right: f32_at(b, 8),
        clear: b[12],
        after: after_at(b, 13),
    }
}

fn read_bfc(b: &[u8]) -> Record
    requires { 24 ≤ length b.now }
    ensures { result ≡ record_of 4 b.now }
{
    Record::Bfc {
        min_y: f32_at(b, 0),
        left: f32_at(b, 4),
        right: f32_at(b, 8),
        left_margin: f32_at(b, 12),
        right_margin: f32_at(b, 16),
        direction: b[20],
        clear: b[21],
        after: after_at(b, 22),
    }
}

// The number is read only where it is one.
fn read_start(b: &[u8]) -> Record
    requires { 5 ≤ length b.now }
    ensures { result ≡ record_of 5 b.now }
{
    match b[0] {
        0 => Record::Start(Some(AvailableSpace::Definite(f32_at(b, 1)))),
        1 => Record::Start(Some(AvailableSpace::MinContent)),
        2 => Record::Start(Some(AvailableSpace::MaxContent)),
        _ => Record::Start(None),
    }
}

fn read_add(b: &[u8]) -> Record
    requires { 6 ≤ length b.now }
    ensures { result ≡ record_of 6 b.now }
{
    Record::Add {
        width: f32_at(b, 0),
        side: b[4],
        clear: b[5],
    }
}

fn read_body(kind: u8, b: &[u8]) -> Record
    requires { (kind < 8) × (body_len kind ≤ length b.now) }
    ensures { result ≡ record_of kind b.now }
{
    match kind {
        0 => Record::Fresh,
        1 => read_width(b),
        2 => read_place(b),
        3 => read_content(b),
        4 => read_bfc(b),
        5 => read_start(b),
        6 => read_add(b),
        _ => Record::Result,
    }
}

pub fn read_record(kind: u8, b: &[u8]) -> Option<Record>
    ensures { result ≡ read_of kind b.now }
{
    if 8 <= kind || b.len() < body_len(kind) {
        return None;
    }
    Some(read_body(kind, b))
}
