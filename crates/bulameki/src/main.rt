// The program: runs the tape of a file, or of standard input where no file is named, and writes its lines to standard output.
// Where a second file is named, that is a text: its lines are written instead, set around the boxes of the page after the tape.
#![tactic(auto)]

ghost use Rattle.std.specs.Prelude.{◌≤◌, length, IfOk, IfSome};

use std::env::FillError;
use std::fmt::InlineText;
use std::io::Read;
use std::rt::{Env, HostRuntime};
use std::{fs, io};

// The longest tape, and a byte by which a longer one shows: its one line is L.
const TAPE_ROOM: usize = 65537;

// The longest text, of 65,535 words, and a byte by which a longer one shows: no count says so many bytes.
const TEXT_ROOM: usize = 262163;

// 11 bytes of line for each byte of the longest tape: a record of kind 7 takes that much, and none takes more.
const LINES_ROOM: usize = 720896;

// 28 bytes of line for each of 512 words: no line of words takes more, and each has a word.
const WORDS_ROOM: usize = 14336;

// The longest name of a file, and the 0 behind it.
const NAME_ROOM: usize = 4096;

// What the system calls a name that is too long, and one whose bytes are no text.
const NAME_TOO_LONG: i32 = 36;

const NO_TEXT: i32 = 84;

// As `Read::read`, but up to the end of the room or of the input.
fn read_whole<R: Read>(from: &mut R, room: &mut [u8]) -> io::Result<usize>
    ensures { IfOk result (λ n. n ≤ length room.new) }
{
    let mut n = 0;
    while n < room.len() {
        let more = from.read(&mut room[n..])?;
        if more == 0 {
            return Ok(n);
        }
        n += more;
    }
    Ok(n)
}

// Writes to standard error; if that fails there is nowhere to say so.
fn say(rt: &HostRuntime, words: &[u8]) {
    let _ = rt.stderr().write_all(words);
}

// An error's words without the number behind them, " (os error 2)".
fn words_alone(text: &str) -> &str {
    match text.split_once(" (os error ") {
        Some((words, _)) => words,
        None => text,
    }
}

// Names what failed, and why.
fn fail(rt: &HostRuntime, what: &[u8], why: io::Error) {
    let text = InlineText::<256>::of(why);
    say(rt, what);
    say(rt, b": ");
    say(rt, words_alone(text.as_str()).as_bytes());
    say(rt, b"\n");
}

// Reads an open file. One that can't be read is named, and there is no answer; so with the next two.
fn read_named<R: Read>(
    rt: &HostRuntime,
    from: &mut R,
    name: &[u8],
    room: &mut [u8],
) -> Option<usize>
    ensures { IfSome result (λ n. n ≤ length room.new) }
{
    match read_whole(from, room) {
        Ok(n) => Some(n),
        Err(e) => {
            fail(rt, name, e);
            None
        }
    }
}

// Reads the file that argument i names.
fn read_arg(rt: &HostRuntime, i: usize, room: &mut [u8]) -> Option<usize>
    ensures { IfSome result (λ n. n ≤ length room.new) }
{
    let mut path = [0u8; NAME_ROOM];
    let Ok(length) = rt.arg(i, &mut path) else {
        // a name that is too long is named by the bytes that came
        fail(rt, &path, io::Error::from_raw_os_error(NAME_TOO_LONG));
        return None;
    };
    let name = &path[..length];
    let opened = match str::from_utf8(name) {
        Ok(path) => fs::open(rt, path),
        Err(_) => Err(io::Error::from_raw_os_error(NO_TEXT)),
    };
    match opened {
        Ok(mut file) => read_named(rt, &mut file, name, room),
        Err(e) => {
            fail(rt, name, e);
            None
        }
    }
}

fn has_arg(rt: &HostRuntime, i: usize) -> bool {
    let mut start = [0u8; 1];
    !matches!(rt.arg(i, &mut start), Err(FillError::NotPresent))
}

fn read_tape(rt: &HostRuntime, room: &mut [u8]) -> Option<usize>
    ensures { IfSome result (λ n. n ≤ length room.new) }
{
    if !has_arg(rt, 1) {
        return read_named(rt, &mut rt.stdin(), b"standard input", room);
    }
    read_arg(rt, 1, room)
}

// Prints what was written into a room; less than 0 says that it was too short.
fn print(rt: &HostRuntime, written: i64, lines: &[u8]) {
    if written < 0 {
        say(rt, b"bulameki: no room for the lines\n");
        return;
    }
    let n = lines.len().min(written as usize);
    if let Err(e) = rt.write_all(&lines[..n]) {
        fail(rt, b"standard output", e);
    }
}

fn print_lines(rt: &HostRuntime, tape: &[u8], lines: &mut [u8]) {
    let written = tape::run_tape(tape, lines);
    print(rt, written, lines);
}

// Reads the text into the room, and prints its lines.
fn print_words(rt: &HostRuntime, tape: &[u8], room: &mut [u8]) {
    let Some(n) = read_arg(rt, 2, room) else {
        return;
    };
    let mut lines = [0u8; WORDS_ROOM];
    let written = tape::set_words(tape, &room[..n], &mut lines);
    print(rt, written, &lines);
}

// A parameter's length stands in its type. Lent where they are made, arrays so long would be computed as lists.
// Kept: two rooms of two lengths, each with what is done with it.
fn lend_lines(rt: &HostRuntime, tape: &[u8], lines: &mut [u8; LINES_ROOM]) {
    print_lines(rt, tape, lines);
}

fn lend_text(rt: &HostRuntime, tape: &[u8], room: &mut [u8; TEXT_ROOM]) {
    print_words(rt, tape, room);
}

fn run(rt: &HostRuntime, tape: &[u8]) {
    let mut lines = [0u8; LINES_ROOM];
    lend_lines(rt, tape, &mut lines);
}

fn set(rt: &HostRuntime, tape: &[u8]) {
    let mut text = [0u8; TEXT_ROOM];
    lend_text(rt, tape, &mut text);
}

// No line is printed before tape and text are read whole, so where one can't be read none is.
fn main(rt: HostRuntime) {
    if has_arg(&rt, 3) {
        say(&rt, b"usage: bulameki [TAPE [TEXT]]\n");
        return;
    }
    let mut tape = [0u8; TAPE_ROOM];
    let Some(n) = read_tape(&rt, &mut tape) else {
        return;
    };
    if has_arg(&rt, 2) {
        set(&rt, &tape[..n]);
        return;
    }
    run(&rt, &tape[..n]);
}
