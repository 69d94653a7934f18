// An input, a line at a time, and the turns of a program that answers each line.
ghost use Rattle.std.specs.Prelude.{◌≡◌};
ghost use Rattle.lines.specs.Lines.{started, waiting, has_feed};
ghost use Rattle.output.specs.Gathered as Gathered;
ghost use Rattle.output.specs.Gathered.{gathered};
ghost use Rattle.asked.specs.Turns.{no_turn, turn_of, input_of, heard, fresh, TurnAfter};

use lines::Input;
use output::{Out, STDERR};
use std::io::Read;

// A turn of a program: how many are left, 0 at the end, the length of the line to be answered, whether the input is over behind it, and what was
// answered so far. A line that was too long for its buffer has length 0, since no program serves either; a read that fails ends the input. The
// turns are counted down from a number that no run uses up.
#[derive(Clone, Copy)]
pub struct Turn {
    pub left: u64,
    pub len: usize,
    pub ends: bool,
    pub from: usize,
    pub to: usize,
    pub out: Out,
}

// The end of the turns. An input that could not be read to its end is told on standard error.
fn ended(unread: bool, o: Out) -> Turn
    ensures { result ≡ no_turn o }
{
    if unread {
        io::write_all(STDERR, b"standard input cannot be read to its end\n");
    }
    Turn {
        left: 0,
        len: 0,
        ends: true,
        from: 0,
        to: 0,
        out: o,
    }
}

// The turn of a line, or the end: what was answered is written out then. A write that failed is the end too.
fn turn_of(input: Input, o: Out, out: &[u8]) -> Turn
    ensures { result ≡ turn_of input o result.out.failed }
{
    if o.failed {
        return ended(false, o.finish(out));
    }
    if input.left == 0 {
        return ended(input.failed, o.finish(out));
    }
    Turn {
        left: input.left,
        len: input.len,
        ends: input.ends,
        from: input.from,
        to: input.to,
        out: o,
    }
}

// The turn of the first line.
pub fn first_turn<R: Read>(reader: &mut R, piece: &mut [u8], line: &mut [u8], out: &[u8]) -> Turn
    ensures { TurnAfter (started 18446744073709551615) piece.old line.old piece.new line.new
        out.now (fresh out.now) result }
{
    let input = lines::next_line(reader, lines::start(u64::MAX), piece, line);
    turn_of(input, output::empty(), out)
}

// What was answered, written out where the next line takes a read.
fn told(o: Out, more: bool, out: &[u8]) -> Out
    ensures { gathered out.now result ≡ heard more (gathered out.now o) }
{
    if more {
        return o;
    }
    o.flush(out)
}

// The turn of the next line, after this one was answered. The answers are written out before more input is waited for.
pub fn next_turn<R: Read>(
    reader: &mut R,
    t: Turn,
    o: Out,
    piece: &mut [u8],
    line: &mut [u8],
    out: &mut [u8],
) -> Turn
    ensures { TurnAfter (input_of t) piece.old line.old piece.new line.new out.new
        (heard (has_feed (waiting piece.old (input_of t))) (Gathered.ended (gathered out.old o))) result }
{
    let input = Input {
        left: t.left,
        len: t.len,
        long: false,
        failed: false,
        ends: t.ends,
        from: t.from,
        to: t.to,
    };
    let answered = told(o.end(out), lines::has_line(input, piece), out);
    turn_of(lines::next_line(reader, input, piece, line), answered, out)
}
