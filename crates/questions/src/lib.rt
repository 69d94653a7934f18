// What each question of the line language is answered over what is lent.
#![tactic(auto)]

ghost use Rattle.std.specs.Prelude.{◌≡◌};
ghost use Rattle.conversion.specs.Flat.{flat};
ghost use Rattle.output.specs.Gathered.{Gathers};
ghost use Rattle.questions.specs.Questions.{reply_to, words_by, answer_words};
ghost use Rattle.lending.specs.Lending.{loan_of};

mod holidays;
pub mod lists;
pub mod months;
mod texts;

use asked::{Words, tags};
use conversion::Table;
use lending::Lent;
use output::Out;
use replies::Reply;

// The reply to a question with no lent buffer, by its tag. A tag that is none falls to the heavens, which know it not either: a question mark.
fn reply_to(w: Words, table: Table, rows: &[u16], rules: &[u16]) -> Reply
    ensures { result ≡ reply_to (flat table rows.now) rules.now w }
{
    let tag = w.tag;
    match tag {
        tags::DAY | tags::DATE | tags::JD | tags::NPT => answers::days::reply(w),
        tags::CHECK | tags::BS | tags::AD | tags::LEN | tags::VALID => {
            answers::conversions::reply(w, table, rows)
        }
        tags::SIN | tags::COS | tags::ASIN | tags::ACOS | tags::TAN => {
            answers::trigonometry::reply(w)
        }
        tags::EVENTS | tags::RISE | tags::SET | tags::KALA | tags::NISHITA | tags::READ => {
            answers::almanac::reply(w)
        }
        tags::CHECKRULES => lists::check(w, rules),
        tags::STEP => months::step(w, table, rows),
        tags::HOLIDAY => holidays::reply(w, table, rows, rules),
        _ => answers::heavens::reply(w),
    }
}

// The answer to a question, by its tag: those of the first arms show lent buffers too.
fn answer_over(
    o: Out,
    out: &mut [u8],
    w: Words,
    table: Table,
    rows: &[u16],
    rules: &[u16],
    text: &[u8],
) -> Out
    ensures { Gathers out.old o (words_by w.tag table rows.now rules.now text.now w)
        out.new result }
{
    let tag = w.tag;
    match tag {
        tags::STARTS => answers::searches::answer(o, out, w),
        tags::LISTBS | tags::LISTAD => lists::list(o, out, w, table, rows, rules),
        tags::GRID => months::month(o, out, w, table, rows, rules),
        tags::READRULES => texts::read(o, out, w, text),
        tags::WRITERULES => texts::write(o, out, w, rules),
        _ => reply_to(w, table, rows, rules).put(o, out),
    }
}

// The answer to a line, over what is lent.
pub fn answer(
    o: Out,
    out: &mut [u8],
    w: Words,
    lent: Lent,
    rows: &[u16],
    rules: &[u16],
    text: &[u8],
) -> Out
    ensures { Gathers out.old o (answer_words (loan_of lent rows.now rules.now text.now) w)
        out.new result }
{
    let table = lent.table;
    let cells = lent.cells.min(rows.len());
    let numbers = lent.numbers.min(rules.len());
    let octets = lent.octets.min(text.len());
    answer_over(
        o,
        out,
        w,
        table,
        &rows[..cells],
        &rules[..numbers],
        &text[..octets],
    )
}
