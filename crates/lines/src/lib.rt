// What a reader brings, a line at a time: each line stands at the start of a lent buffer.
#![tactic(auto)]

ghost use Rattle.std.specs.Prelude.{◌≡◌, false, drop};
ghost use Rattle.text.specs.Kept.{Fills};
ghost use Rattle.lines.specs.Lines.{started, ended, given, last_of, front, waiting, has_feed, NextLine};

use std::io::Read;
use text::{Filled, Held};

// How many steps are left, 0 where there is no line any more; the length of the line, and whether it was too long for the buffer, when its length
// is 0; whether a read failed, or the steps were used up, before the input was over; whether nothing comes behind the line, since the input is over;
// and which bytes of the piece that was read last are still to be taken in. A proved loop has to end, and nothing says that an input does: so the
// steps are counted down.
#[derive(Clone, Copy)]
pub struct Input {
    pub left: u64,
    pub len: usize,
    pub long: bool,
    pub failed: bool,
    pub ends: bool,
    pub from: usize,
    pub to: usize,
}

// Before the first line, with so many steps to go.
pub fn start(steps: u64) -> Input
    ensures { (result ≡ started steps) × (result.left ≡ steps) }
{
    Input {
        left: steps,
        len: 0,
        long: false,
        failed: false,
        ends: false,
        from: 0,
        to: 0,
    }
}

// No line any more, at the input's end or before it.
fn over(failed: bool) -> Input
    ensures { result ≡ ended failed }
{
    Input {
        left: 0,
        len: 0,
        long: false,
        failed,
        ends: true,
        from: 0,
        to: 0,
    }
}

// The line that is held. One that was too long for the buffer is handed over empty.
fn handed(held: Held, left: u64, ends: bool, from: usize, to: usize) -> Input
    ensures { result ≡ given held left ends from to }
{
    Input {
        left,
        len: held.unwrap_or(0),
        long: held.is_none(),
        failed: left == 0,
        ends,
        from,
        to,
    }
}

// What is held at the end of the input: a last line needs no line feed.
fn last(held: Held, left: u64) -> Input
    ensures { result ≡ last_of held left }
{
    match held {
        Some(0) => over(false),
        _ => handed(held, left, true, 0, 0),
    }
}

// More of a line from what is left of the piece.
fn fill_on(piece: &[u8], from: usize, to: usize, line: &mut [u8], held: Held) -> Filled
    ensures { Fills (front piece.now to) from line.old held line.new result }
{
    if to <= piece.len() {
        return text::fill(&piece[..to], from, line, held);
    }
    Filled::Open(held)
}

// Whether a line feed stands in a text from a place on.
fn has_feed(s: &[u8], from: usize) -> bool
    ensures { result ≡ has_feed (drop from s.now) }
{
    text::behind(s, from).iter().any(|b| *b == b'\n')
}

// Whether the piece has a whole line more, so that it is handed over without a read.
pub fn has_line(input: Input, piece: &[u8]) -> bool
    ensures { result ≡ has_feed (waiting piece.now input) }
{
    let to = input.to;
    if to <= piece.len() {
        return has_feed(&piece[..to], input.from);
    }
    false
}

// The next line of an input that goes on.
fn read_on<R: Read>(reader: &mut R, input: Input, piece: &mut [u8], line: &mut [u8]) -> Input
    requires { input.ends ≡ false }
    ensures { NextLine input piece.old line.old piece.new line.new result }
{
    let mut held = text::nothing();
    let mut left = input.left;
    let mut from = input.from;
    let mut to = input.to;
    while 0 < left {
        left -= 1;
        match fill_on(piece, from, to, line, held) {
            Filled::Feed(h, next) => {
                return handed(h, left, false, next, to);
            }
            Filled::Open(h) => {
                held = h;
            }
        }
        match reader.read(piece) {
            Ok(0) => {
                return last(held, left);
            }
            Ok(n) => {
                from = 0;
                to = n;
            }
            Err(_) => {
                return over(true);
            }
        }
    }
    over(true)
}

// The next line of the input. Pieces and line are kept in the lent buffers. A read that fails ends the input, and behind its end nothing is read.
pub fn next_line<R: Read>(reader: &mut R, input: Input, piece: &mut [u8], line: &mut [u8]) -> Input
    ensures { NextLine input piece.old line.old piece.new line.new result }
{
    if input.ends {
        return over(false);
    }
    read_on(reader, input, piece, line)
}
