// The question about holidays: `holiday`.
ghost use Rattle.std.specs.Prelude.{◌≡◌};
ghost use Rattle.conversion.specs.Flat.{flat};
ghost use Rattle.questions.specs.Holidays.{holiday_reply};

use asked::Words;
use conversion::Table;
use grid::cells::mark;
use replies::Reply;

// The reply to a line `holiday` in form, or a question mark.
#[tactic(auto, unfolding(crate::specs::Holidays::holiday_reply))]
pub fn reply(w: Words, table: Table, rows: &[u16], rules: &[u16]) -> Reply
    ensures { result ≡ holiday_reply (flat table rows.now) rules.now w }
{
    if w.form == 111 {
        let day = holiday::is_holiday(table, rows, rules, w.small(1), w.small(2), w.small(3));
        return Reply::said(day, |yes| Reply::Number(mark(yes) as u64));
    }
    Reply::Unformed
}
