// The search for the instants at which a tithi begins. Each function serves every f64.
ghost use Rattle.std.specs.Prelude.{◌≡◌, ◌++◌, length, drop};
ghost use Rattle.sky.specs.Tithi.{elongation_of};
ghost use Rattle.sky.specs.Search.{turned, offset, target_of, halved, step_end, crosses, first, starts_of, next_tithi, end_of};
ghost use Rattle.sky.specs.Answers.{first_says};
ghost use Rattle.sky.specs.Inner.{no_start, Comes};

use super::tithi::elongation_of;
use gregorian::UtDay;

// How many starts a walk found, how many steps it took, and whether it came to the end.
#[derive(Clone, Copy)]
pub struct Walked {
    pub count: usize,
    pub steps: usize,
    pub ended: bool,
}

// The start that a walk came to, if it did, where the walk stands then, the offset there, and how many steps are left.
#[derive(Clone, Copy)]
pub struct Next {
    pub at: Option<f64>,
    pub lo: f64,
    pub gap: f64,
    pub left: usize,
}

// An angle brought above -180 and to at most 180 degrees by one turn.
fn turn(x: f64) -> f64
    ensures { result ≡ turned x }
{
    let y = if x <= -180.0 { x + 360.0 } else { x };
    if y > 180.0 { y - 360.0 } else { y }
}

// The signed distance from a target to the elongation.
#[tactic(auto, unfolding(crate::specs::Search::offset))]
fn elongation_offset(ut: UtDay, target: f64) -> f64
    ensures { result ≡ offset elongation_of target ut.0 }
{
    turn(elongation_of(ut) - target)
}

// The elongation at which a tithi begins.
fn target_of(tithi: u16) -> f64
    ensures { result ≡ target_of tithi }
{
    (tithi as f64 - 1.0) * 12.0
}

// Thirty halvings of a step in which the offset goes above 0.
fn bisect_crossing(target: f64, from: f64, to: f64) -> f64
    ensures { result ≡ halved (offset elongation_of target) 30 from to }
{
    let mut a = from;
    let mut b = to;
    for _done in 0..30u8 {
        let mid = (a + b) / 2.0;
        if elongation_offset(UtDay(mid), target) <= 0.0 {
            a = mid;
        } else {
            b = mid;
        }
    }
    (a + b) / 2.0
}

// Where the step from lo ends.
fn step_end(to: f64, lo: f64) -> f64
    ensures { result ≡ step_end to lo }
{
    let next = lo + 0.75;
    if to < next { to } else { next }
}

// Whether a start lies in a step, by the offsets at its ends.
fn is_crossing(a: f64, b: f64) -> bool
    ensures { result ≡ crosses a b }
{
    a <= 0.0 && b > 0.0
}

// The walk came to its end, with no start.
fn no_start(lo: f64, gap: f64, left: usize) -> Next
    ensures { result ≡ no_start lo gap left }
{
    Next {
        at: None,
        lo,
        gap,
        left,
    }
}

// The next start of a walk from an instant with this offset, at most so many steps on.
fn next_start(target: f64, end: f64, from: f64, gap: f64, steps: usize) -> Next
    requires { gap ≡ offset elongation_of target from }
    ensures { Comes (offset elongation_of target) end steps from result }
{
    let mut lo = from;
    let mut f_lo = gap;
    for done in 0..steps {
        if !(lo < end) {
            return no_start(lo, f_lo, steps - done);
        }
        let hi = step_end(end, lo);
        let f_hi = elongation_offset(UtDay(hi), target);
        if is_crossing(f_lo, f_hi) {
            return Next {
                at: Some(bisect_crossing(target, lo, hi)),
                lo: hi,
                gap: f_hi,
                left: steps - done - 1,
            };
        }
        lo = hi;
        f_lo = f_hi;
    }
    no_start(lo, f_lo, 0)
}

// The first start of a walk of at most 1,024 steps.
fn first_next(target: f64, end: f64, from: f64) -> Next
    ensures { Comes (offset elongation_of target) end 1024 from result }
{
    next_start(
        target,
        end,
        from,
        elongation_offset(UtDay(from), target),
        1024,
    )
}

// Every start of a tithi from one instant to another, written to the front of `found`.
pub fn walk(tithi: u16, from: UtDay, to: UtDay, found: &mut [f64; 1024]) -> Walked
    requires { length found.old ≡ 1024 }
    ensures count { result.count ≡ length (starts_of tithi from.0 to.0).starts }
    ensures steps { result.steps ≡ (starts_of tithi from.0 to.0).steps }
    ensures ended { result.ended ≡ (starts_of tithi from.0 to.0).ended }
    ensures written { found.new ≡ (starts_of tithi from.0 to.0).starts ++ drop result.count found.old }
{
    let target = target_of(tithi);
    let begin = from.0;
    let end = to.0;
    let mut next = first_next(target, end, begin);
    let mut count: usize = 0;
    while let Some(start) = next.at {
        found[count] = start;
        count += 1;
        next = next_start(target, end, next.lo, next.gap, next.left);
    }
    let steps = 1024 - next.left;
    let ended = !(next.lo < end);
    Walked {
        count,
        steps,
        ended,
    }
}

// The first start of a tithi from one instant to another.
pub fn first_start(tithi: u16, from: UtDay, to: UtDay) -> Option<UtDay>
    ensures { first_says result ≡ first (starts_of tithi from.0 to.0).starts }
{
    let at = first_next(target_of(tithi), to.0, from.0).at?;
    Some(UtDay(at))
}

// The tithi after another; the first comes after the thirtieth.
#[tactic(auto, unfolding(crate::specs::Search::next_tithi))]
pub fn next_tithi(tithi: u16) -> u16
    ensures { result ≡ next_tithi tithi }
{
    if tithi < 30 { tithi + 1 } else { 1 }
}

// Where a tithi that runs at a day of universal time ends: the next one's first start in two and a half days.
pub fn end_of(tithi: u16, ut: UtDay) -> Option<UtDay>
    ensures { first_says result ≡ end_of tithi ut.0 }
{
    first_start(next_tithi(tithi), ut, UtDay(ut.0 + 2.5))
}
