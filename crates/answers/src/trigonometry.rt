// Questions about an angle or an arc: `sin`, `cos`, `asin`, `acos` and `tan`.
ghost use Rattle.std.specs.Prelude.{◌≡◌};
ghost use Rattle.replies.specs.Replies.{among};
ghost use Rattle.answers.specs.Trigonometry.{angle_rows, trigonometry_reply};

use asked::{Words, tags};
use replies::Reply;

// The reply to a line with one float, by its tag.
fn of_float(tag: u64, x: f64) -> Reply
    ensures { result ≡ among tag (angle_rows x) }
{
    match tag {
        tags::SIN => Reply::Float(trig::sine(x)),
        tags::COS => Reply::Float(trig::cosine(x)),
        tags::ASIN => Reply::Float(trig::arcsine(x)),
        tags::ACOS => Reply::Float(trig::arccosine(x)),
        tags::TAN => Reply::Float(trig::tangent(x)),
        _ => Reply::Unformed,
    }
}

// The reply to a line in form, or a question mark.
#[tactic(auto, unfolding(crate::specs::Trigonometry::trigonometry_reply))]
pub fn reply(w: Words) -> Reply
    ensures { result ≡ trigonometry_reply w }
{
    if w.form == 4 {
        return of_float(w.tag, w.float(1));
    }
    Reply::Unformed
}
