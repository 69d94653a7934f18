// The search for a tithi's starts, `starts`, whose answer shows the lent buffer too.
ghost use Rattle.std.specs.Prelude.{◌≡◌, replicate};
ghost use Rattle.paper.specs.Floats.{dec};
ghost use Rattle.output.specs.Gathered.{Gathers};
ghost use Rattle.asked.specs.Line.{small, float};
ghost use Rattle.answers.specs.Searches.{starts_words, search_words};

use asked::Words;
use gregorian::UtDay;
use output::Out;
use replies::Reply;

// The answer to a search, and the buffer as it stands after the call.
fn search(o: Out, out: &mut [u8], w: Words, buffer: &mut [f64]) -> Out
    ensures { Gathers out.old o (starts_words (small w 1) (float w 2) (float w 3) buffer.old) out.new result }
{
    let a = sky::tithi_starts_between(w.small(1), UtDay(w.float(2)), UtDay(w.float(3)), buffer);
    let counted = Reply::said(a, |s| Reply::Pair(s.count as u64, s.steps as u64)).put(o, out);
    replies::put_list(counted, out, buffer)
}

// The same where the buffer has the asked length and holds 7.0 before. A line can ask for any length up to 65,535.
fn starts(o: Out, out: &mut [u8], w: Words) -> Out
    ensures { Gathers out.old o (starts_words (small w 1) (float w 2) (float w 3) (replicate (small w 4) (dec 7 0))) out.new result }
{
    let mut buffer = [7.0; 65535];
    let n = w.small(4) as usize;
    search(o, out, w, &mut buffer[..n])
}

// The answer to a line `starts` in form, or a question mark.
#[tactic(auto, unfolding(crate::specs::Searches::search_words))]
pub fn answer(o: Out, out: &mut [u8], w: Words) -> Out
    ensures { Gathers out.old o (search_words w) out.new result }
{
    if w.form == 1441 {
        return starts(o, out, w);
    }
    Reply::Unformed.put(o, out)
}
