// The desk at which lines are answered: what lines lend, the state that is kept, and the run over all lines.
#![tactic(auto)]

ghost use Rattle.std.specs.Prelude.{length};
ghost use Rattle.lending.specs.Lending.{loan_of};
ghost use Rattle.desk.specs.Keeping.{state_in, Sound, Says};
ghost use Rattle.desk.specs.Runs.{told_to, StepDone, Lends, Answers};

mod keeping;

use asked::{Octets, Turn, Words};
use keeping::{Keeping, Said};
use kept::Kept;
use lending::Lent;
use output::Out;
use std::io::Read;

// The turn after a line, what is lent after it, and the state that is kept, or none.
#[derive(Clone, Copy)]
struct Stepped {
    turn: Turn,
    lent: Lent,
    kept: Option<Kept>,
}

// The answer to a line that asks, over what is lent and the state, and the state after it; nothing to a line that lends.
fn tell(
    o: Out,
    out: &mut [u8],
    w: Words,
    x: Octets,
    lent: Lent,
    rows: &[u16],
    rules: &[u16],
    text: &[u8],
    kept: Option<Kept>,
) -> Said
    ensures { Sound kept → Says out.old o (told_to (loan_of lent rows.now rules.now text.now)
        (state_in kept) w x) out.new result }
{
    if lending::is_lending(w, x) {
        return Said { out: o, kept };
    }
    match keeping::keeping_of(w.tag, w.form) {
        Some(Keeping::Start) => keeping::begin(o, out, lending::table_in(w)),
        Some(Keeping::Ask(question)) => {
            let held = kept::front(rules, lent.numbers);
            keeping::ask(o, out, kept, w, question, held)
        }
        None => Said {
            out: questions::answer(o, out, w, lent, rows, rules, text),
            kept,
        },
    }
}

// A turn: the line lends or is answered, and the next line is read.
fn step<R: Read>(
    reader: &mut R,
    t: Turn,
    lent: Lent,
    kept: Option<Kept>,
    rows: &mut [u16],
    rules: &mut [u16],
    text: &mut [u8],
    piece: &mut [u8],
    line: &mut [u8],
    out: &mut [u8],
) -> Stepped
    ensures { Sound kept → StepDone t (loan_of lent rows.old rules.old text.old) kept piece.old
        line.old out.old (loan_of result.lent rows.new rules.new text.new) piece.new
        line.new out.new result }
{
    let w = asked::split(line, t.len);
    let x = asked::octets_in(line, t.len);
    let after = lending::lend(lent, rows, rules, text, w, x);
    let said = tell(t.out, out, w, x, after, rows, rules, text, kept);
    Stepped {
        turn: asked::next_turn(reader, t, said.out, piece, line, out),
        lent: after,
        kept: said.kept,
    }
}

// All turns, to the end of the input: every line that came is answered, in its order.
fn run<R: Read>(
    reader: &mut R,
    first: Lent,
    rows: &mut [u16],
    rules: &mut [u16],
    text: &mut [u8],
    piece: &mut [u8],
    line: &mut [u8],
    out: &mut [u8],
)
    ensures { Answers (length line.old) (loan_of «first» rows.old rules.old text.old)
        out.old rows.new rules.new text.new out.new }
{
    let mut t = asked::first_turn(reader, piece, line, out);
    let mut lent = first;
    let mut kept = None;
    while 0 < t.left {
        let s = step(reader, t, lent, kept, rows, rules, text, piece, line, out);
        t = s.turn;
        lent = s.lent;
        kept = s.kept;
    }
}

// Answers every line that a reader brings on standard output, over what is lent at first and what lines lend in its place; no state is kept at first.
// Not inlined, so that a caller that refuses before the first line does not need the room for its buffers.
#[inline(never)]
pub fn answer_from<R: Read>(
    reader: &mut R,
    first: Lent,
    rows: &mut [u16],
    rules: &mut [u16],
    text: &mut [u8],
)
    ensures { Lends 4096 (loan_of «first» rows.old rules.old text.old) rows.new rules.new
        text.new }
{
    let mut piece = [0u8; 4096];
    let mut line = [0u8; 4096];
    let mut out = [0u8; 8192];
    run(
        reader, first, rows, rules, text, &mut piece, &mut line, &mut out,
    );
}
