// Questions about months: `step` and `grid`.
ghost use Rattle.std.specs.Prelude.{◌≡◌, Ok};
ghost use Rattle.conversion.specs.Flat.{flat};
ghost use Rattle.grid.specs.Kathmandu.{month_shown};
ghost use Rattle.output.specs.Gathered.{Gathers};
ghost use Rattle.asked.specs.Line.{small};
ghost use Rattle.replies.specs.Replies.{date_in};
ghost use Rattle.questions.specs.Months as Months;
ghost use Rattle.questions.specs.Months.{step_reply, month_words, shown_words, grid_words};

use asked::Words;
use conversion::Table;
use grid::Month;
use output::Out;
use paper::Answer;
use replies::Reply;

// A month step. A month past 255 and a step that is no i32 are out of form.
fn stepped(w: Words, minus: bool, table: Table, rows: &[u16]) -> Reply
    ensures { result ≡ Months.stepped (flat table rows.now) w minus }
{
    let month = w.small(2);
    if 255 < month {
        return Reply::Unformed;
    }
    let Some(by) = w.whole(3, minus) else {
        return Reply::Unformed;
    };
    let month = grid::step_month(table, rows, w.small(1), month as u8, by);
    Reply::said(month, |m| Reply::Pair(m.year as u64, m.month as u64))
}

// The reply to a line `step` in form, or a question mark.
#[tactic(auto, unfolding(crate::specs::Months::step_reply))]
pub fn step(w: Words, table: Table, rows: &[u16]) -> Reply
    ensures { result ≡ step_reply (flat table rows.now) w }
{
    let form = w.form;
    if (form == 111) | (form == 112) {
        return stepped(w, false, table, rows);
    }
    if form == 113 {
        return stepped(w, true, table, rows);
    }
    Reply::Unformed
}

// A month's days, its first and last date and both counts.
#[tactic(auto, unfolding(replies::specs::Replies::reply_words), using(output::proofs::Gathering::then))]
fn put_days(o: Out, out: &mut [u8], m: Month) -> Out
    ensures { Gathers out.old o (month_words (Ok m)) out.new result }
{
    let first = m.first;
    let last = m.last;
    let days = Reply::Number(m.days as u64).put(o, out);
    let from = replies::put_date_words(days, out, first.year, first.month, first.day);
    let to = replies::put_date_words(from, out, last.year, last.month, last.day);
    to.number(out, m.cells as u64)
        .number(out, m.festivals as u64)
}

// The month or the refusal.
fn put_month_words(o: Out, out: &mut [u8], a: Answer<Month>) -> Out
    ensures { Gathers out.old o (month_words a) out.new result }
{
    match a {
        Ok(m) => put_days(o, out, m),
        Err(e) => Reply::Refused(e).put(o, out),
    }
}

// The month or the refusal, and both buffers.
pub fn put_shown(o: Out, out: &mut [u8], a: Answer<Month>, cells: &[u16], list: &[u16]) -> Out
    ensures { Gathers out.old o (shown_words (record { answer = a; cells = cells.now; festivals = list.now }))
        out.new result }
{
    let told = put_month_words(o, out, a);
    let shown = replies::put_list(told, out, cells);
    replies::put_list(shown, out, list)
}

// A month with both buffers as they stand after the call.
fn put_asked(
    o: Out,
    out: &mut [u8],
    w: Words,
    table: Table,
    rows: &[u16],
    rules: &[u16],
    cells: &mut [u16],
    list: &mut [u16],
) -> Out
    ensures { Gathers out.old o (shown_words (month_shown table rows.now rules.now (date_in w) (small w 4)
        (small w 5) cells.old list.old)) out.new result }
{
    let today = replies::date_of(w);
    let a = grid::month_grid(
        table,
        rows,
        rules,
        today,
        w.small(4),
        w.small(5),
        cells,
        list,
    );
    put_shown(o, out, a, cells, list)
}

// The answer to a line `grid` in form, whose buffers hold 7 before, or a question mark.
pub fn month(o: Out, out: &mut [u8], w: Words, table: Table, rows: &[u16], rules: &[u16]) -> Out
    ensures { Gathers out.old o (grid_words table rows.now rules.now w) out.new result }
{
    if w.form == 1111111 {
        let mut cells = [7u16; 65535];
        let mut list = [7u16; 65535];
        let n = w.small(6) as usize;
        let k = w.small(7) as usize;
        return put_asked(
            o,
            out,
            w,
            table,
            rows,
            rules,
            &mut cells[..n],
            &mut list[..k],
        );
    }
    Reply::Unformed.put(o, out)
}
