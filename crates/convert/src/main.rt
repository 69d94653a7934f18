// Reads lines bs=Y-M-D and ad=YYYY-MM-DD, and writes both dates of each, the refusal, and how far outside the table a date lies.
#![tactic(auto)]

ghost use Rattle.std.specs.Prelude.{◌≡◌, ◌≤◌, length};
ghost use Rattle.output.specs.Gathered.{gathered};
ghost use Rattle.asked.specs.Runs.{TurnDone, Run};
ghost use Rattle.convert.specs.Replies.{gather_reply, converting};

mod line;
mod reply;

use asked::Turn;
use output::Out;
use std::io::Read;

// Gathers the reply to a line.
fn answer(o: Out, out: &mut [u8], s: &[u8]) -> Out
    ensures { gathered out.new result ≡ gather_reply (gathered out.old o) s.now }
{
    let ready = o.room(out, 80);
    Out {
        at: reply::put_line(out, ready.at, s),
        begun: false,
        failed: ready.failed,
    }
}

// Answers the line, and reads the next one.
fn turn<R: Read>(reader: &mut R, t: Turn, piece: &mut [u8], line: &mut [u8], out: &mut [u8]) -> Turn
    requires { t.len ≤ length line.old }
    ensures { TurnDone converting t tt piece.old line.old out.old tt piece.new line.new
        out.new result }
{
    let o = t.out;
    let n = t.len;
    let answered = answer(o, out, &line[..n]);
    asked::next_turn(reader, t, answered, piece, line, out)
}

// All turns, to the end of the input: the reply to every line that came, one behind the other.
fn run<R: Read>(reader: &mut R, piece: &mut [u8], line: &mut [u8], out: &mut [u8])
    ensures { Run converting (length line.old) tt out.old tt out.new }
{
    let mut t = asked::first_turn(reader, piece, line, out);
    while 0 < t.left {
        t = turn(reader, t, piece, line, out);
    }
}

fn main(rt: HostRuntime) {
    let mut piece = [0u8; 4096];
    let mut line = [0u8; 32];
    let mut out = [0u8; 4096];
    run(&mut rt.stdin(), &mut piece, &mut line, &mut out);
}
