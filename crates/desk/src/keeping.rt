// Questions to the kept state: `start`, `take`, `append`, `askbs`, `askad`, `askgrid`, `forget` and `stored`.
ghost use Rattle.std.specs.Prelude.{◌≡◌, Some};
ghost use Rattle.output.specs.Gathered.{Gathers};
ghost use Rattle.replies.specs.Replies.{said, reply_words};
ghost use Rattle.replies.specs.declared.Reply.TheVariants as R;
ghost use Rattle.lending.specs.Lending.{line_numbers};
ghost use Rattle.kept.specs.Operations.{start, append_row};
ghost use Rattle.kept.specs.Held.{held, Ready, AskedAs, stored_says};
ghost use Rattle.desk.specs.Keeping.{in_form, keeping_of, start_told, done_told, list_told, month_told, sevens, day_asked, month_asked, years_words, asked_of};
ghost use Rattle.desk.specs.Keeping.{asked_if, state_in, Sound, Says};
ghost use Rattle.asked.specs.Line.{small};

use asked::{Words, tags};
use conversion::Table;
use kept::{After, Kept, StoredYears, asking};
use output::Out;
use questions::{lists, months};
use replies::Reply;

// What was answered, and the state that is kept after it, or none.
#[derive(Clone, Copy)]
pub struct Said {
    pub out: Out,
    pub kept: Option<Kept>,
}

// A question to a state.
#[derive(Clone, Copy)]
pub enum Question {
    Take,
    Append,
    DayBs,
    DayAd,
    Month,
    Forget,
    Stored,
}

// A new state, or a question to the one that is kept.
#[derive(Clone, Copy)]
pub enum Keeping {
    Start,
    Ask(Question),
}

// A question where the line has its form.
fn formed(good: bool, k: Keeping) -> Option<Keeping>
    ensures { result ≡ in_form good k }
{
    good.then_some(k)
}

// Which question of the state a line of this tag and form is, or none.
pub fn keeping_of(tag: u64, form: u64) -> Option<Keeping>
    ensures { result ≡ keeping_of tag form }
{
    match tag {
        tags::START => formed(form == 1111, Keeping::Start),
        tags::TAKE => formed(form == 0, Keeping::Ask(Question::Take)),
        tags::APPEND => formed(
            (form == 0) | (0 < lending::count_in(form)),
            Keeping::Ask(Question::Append),
        ),
        tags::ASKBS => formed(form == 1111, Keeping::Ask(Question::DayBs)),
        tags::ASKAD => formed(form == 1111, Keeping::Ask(Question::DayAd)),
        tags::ASKGRID => formed(form == 1111111, Keeping::Ask(Question::Month)),
        tags::FORGET => formed(form == 0, Keeping::Ask(Question::Forget)),
        tags::STORED => formed(form == 0, Keeping::Ask(Question::Stored)),
        _ => None,
    }
}

// A new state, or the refusal and no state.
pub fn begin(o: Out, out: &mut [u8], table: Table) -> Said
    ensures { Says out.old o (start_told (start table)) out.new result }
{
    let started = kept::start(table);
    match started.answer {
        Ok(()) => Said {
            out: Reply::Good.put(o, out),
            kept: Some(started.state),
        },
        Err(why) => Said {
            out: Reply::Refused(why).put(o, out),
            kept: None,
        },
    }
}

// What an operation is answered, and the state after it.
fn put_done(o: Out, out: &mut [u8], done: After<()>) -> Said
    ensures gathers { Gathers out.old o (reply_words (said (λ x. R.Good) done.answer)) out.new result.out }
    ensures kept_value { result.kept ≡ Some done.state }
{
    Said {
        out: Reply::said(done.answer, |()| Reply::Good).put(o, out),
        kept: Some(done.state),
    }
}

// The row that a line has is appended.
fn append(o: Out, out: &mut [u8], kept: Kept, w: Words) -> Said
    ensures { Ready kept → Says out.old o (done_told (append_row (held kept) (line_numbers w))) out.new result }
{
    let mut row = [0u16; 16];
    let n = lending::put_numbers(&mut row, w);
    put_done(o, out, kept::append_row(kept, &row[..n]))
}

// A day's list, asked by BS date or else by Gregorian date.
fn ask_day(kept: Kept, w: Words, bs: bool, list: &mut [u16]) -> After<usize>
    ensures { Ready kept → AskedAs result list.new (day_asked bs (held kept) w list.old) }
{
    let year = w.small(1);
    let month = w.small(2);
    let day = w.small(3);
    if bs {
        return asking::ask_bs(kept, year, month, day, list);
    }
    asking::ask_ad(kept, year, month, day, list)
}

// The answer, the buffer after it, and the state.
fn put_day(o: Out, out: &mut [u8], kept: Kept, w: Words, bs: bool, list: &mut [u16]) -> Said
    ensures { Ready kept → Says out.old o (list_told (day_asked bs (held kept) w list.old)) out.new result }
{
    let asked = ask_day(kept, w, bs, list);
    Said {
        out: lists::put_listed(o, out, asked.answer, list),
        kept: Some(asked.state),
    }
}

// A day's list in a buffer that has the asked length and holds 7 before.
fn day(o: Out, out: &mut [u8], kept: Kept, w: Words, bs: bool) -> Said
    ensures { Ready kept → Says out.old o (list_told (day_asked bs (held kept) w (sevens (small w 4)))) out.new result }
{
    let mut buffer = [7u16; 65535];
    let n = w.small(4) as usize;
    put_day(o, out, kept, w, bs, &mut buffer[..n])
}

// A month with both buffers as they stand after the call, and the state.
fn put_month(
    o: Out,
    out: &mut [u8],
    kept: Kept,
    w: Words,
    cells: &mut [u16],
    list: &mut [u16],
) -> Said
    ensures { Ready kept → Says out.old o (month_told (month_asked (held kept) w cells.old list.old))
        out.new result }
{
    let today = replies::date_of(w);
    let asked = kept::months::ask_month(kept, today, w.small(4), w.small(5), cells, list);
    Said {
        out: months::put_shown(o, out, asked.answer, cells, list),
        kept: Some(asked.state),
    }
}

// A month in buffers that have the asked lengths and hold 7 before.
fn month(o: Out, out: &mut [u8], kept: Kept, w: Words) -> Said
    ensures { Ready kept → Says out.old o (month_told (month_asked (held kept) w (sevens (small w 6)) (sevens (small w 7))))
        out.new result }
{
    let mut cells = [7u16; 65535];
    let mut list = [7u16; 65535];
    let n = w.small(6) as usize;
    let k = w.small(7) as usize;
    put_month(o, out, kept, w, &mut cells[..n], &mut list[..k])
}

// The stored years.
#[tactic(auto, unfolding(replies::specs::Replies::reply_words))]
fn put_stored(o: Out, out: &mut [u8], years: StoredYears) -> Out
    ensures { Gathers out.old o (years_words (stored_says years)) out.new result }
{
    match years {
        StoredYears::Nothing => Reply::Good.put(o, out),
        StoredYears::One(y) => Reply::Number(y as u64).put(o, out),
        StoredYears::Two(y, z) => Reply::Pair(y as u64, z as u64).put(o, out),
    }
}

// The answer of a state, over the lent rules, and the state after it.
fn ask_kept(o: Out, out: &mut [u8], kept: Kept, w: Words, question: Question, rules: &[u16]) -> Said
    ensures { Ready kept → Says out.old o (asked_of (held kept) rules.now w question) out.new result }
{
    match question {
        Question::Take => put_done(o, out, kept::take_rules(kept, rules)),
        Question::Append => append(o, out, kept, w),
        Question::DayBs => day(o, out, kept, w, true),
        Question::DayAd => day(o, out, kept, w, false),
        Question::Month => month(o, out, kept, w),
        Question::Forget => Said {
            out: Reply::Good.put(o, out),
            kept: Some(kept::forget(kept)),
        },
        Question::Stored => Said {
            out: put_stored(o, out, kept::stored(kept)),
            kept: Some(kept),
        },
    }
}

// The answer of the state that is kept, or a question mark where there is none.
#[tactic(auto, unfolding(crate::specs::Keeping::asked_if))]
pub fn ask(
    o: Out,
    out: &mut [u8],
    kept: Option<Kept>,
    w: Words,
    question: Question,
    rules: &[u16],
) -> Said
    ensures { Sound kept → Says out.old o (asked_if (state_in kept) rules.now w question) out.new result }
{
    let Some(state) = kept else {
        return Said {
            out: Reply::Unformed.put(o, out),
            kept,
        };
    };
    ask_kept(o, out, state, w, question, rules)
}
