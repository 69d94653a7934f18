// Questions about the lent rules: `checkrules`, `listbs` and `listad`.
ghost use Rattle.std.specs.Prelude.{◌≡◌};
ghost use Rattle.output.specs.Gathered.{Gathers};
ghost use Rattle.questions.specs.Lists.{rules_reply, list_asked, listed_words, list_words};

use asked::{Words, tags};
use conversion::Table;
use output::Out;
use paper::{Answer, Refusal};
use replies::Reply;

// The reply to a line `checkrules` in form, or a question mark.
pub fn check(w: Words, numbers: &[u16]) -> Reply
    ensures { result ≡ rules_reply numbers.now w }
{
    if w.form == 0 {
        return Reply::passed(rules::accepts_rules(numbers), Refusal::BadRules);
    }
    Reply::Unformed
}

// A day's list, asked by BS date or else by Gregorian date.
#[tactic(auto, unfolding(crate::specs::Lists::list_asked))]
fn asked(w: Words, table: Table, rows: &[u16], rules: &[u16], list: &mut [u16]) -> Answer<usize>
    ensures answer { result ≡ (list_asked table rows.now rules.now w list.old).answer }
    ensures buffer { list.new ≡ (list_asked table rows.now rules.now w list.old).buffer }
{
    let year = w.small(1);
    let month = w.small(2);
    let day = w.small(3);
    if w.tag == tags::LISTBS {
        return festivals::festivals_on(table, rows, rules, year, month, day, list);
    }
    festivals::festivals_on_ad(table, rows, rules, year, month, day, list)
}

// How many entries, or the refusal, and the buffer.
pub fn put_listed(o: Out, out: &mut [u8], answer: Answer<usize>, list: &[u16]) -> Out
    ensures { Gathers out.old o (listed_words (record { answer = answer; buffer = list.now })) out.new result }
{
    let counted = Reply::said(answer, |n| Reply::Number(n as u64)).put(o, out);
    replies::put_list(counted, out, list)
}

// The answer and the buffer after it.
fn put_asked(
    o: Out,
    out: &mut [u8],
    w: Words,
    table: Table,
    rows: &[u16],
    rules: &[u16],
    list: &mut [u16],
) -> Out
    ensures { Gathers out.old o (listed_words (list_asked table rows.now rules.now w list.old))
        out.new result }
{
    let answer = asked(w, table, rows, rules, list);
    put_listed(o, out, answer, list)
}

// The answer to a line in form, whose buffer has the asked length and holds 7 before, or a question mark. A line can ask for any length up to 65,535.
pub fn list(o: Out, out: &mut [u8], w: Words, table: Table, rows: &[u16], rules: &[u16]) -> Out
    ensures { Gathers out.old o (list_words table rows.now rules.now w) out.new result }
{
    if w.form == 1111 {
        let mut buffer = [7u16; 65535];
        let n = w.small(4) as usize;
        return put_asked(o, out, w, table, rows, rules, &mut buffer[..n]);
    }
    Reply::Unformed.put(o, out)
}
