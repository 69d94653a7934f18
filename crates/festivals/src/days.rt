// The day on which a tithi is celebrated.
ghost use Rattle.std.specs.Prelude.{◌≡◌, false, ◌&&◌, ◌≤◌, ◌<◌};
ghost use Rattle.std.specs.Float.Ieee.{le, lt};
ghost use Rattle.sky.specs.Answers.{first_says};
ghost use Rattle.panchanga.specs.Kalas.{kala_at, is_nishita};
ghost use Rattle.panchanga.specs.Answers.{span_is, mapped};
ghost use Rattle.rules.specs.Days.{holds, nishita, rank, claimed, asked_day, festival_day};
ghost use Rattle.festivals.specs.Kathmandu.{kala_number, kala_named, is_begins, nepal_day, sun_on, end_after, kathmandu};

use gregorian::{UtDay, npt_date};
use panchanga::{KATHMANDU, Kala, Span, kalas, noaa};
use sky::search;

// The day in Nepal at an instant.
#[tactic(auto, unfolding(crate::specs::Kathmandu::nepal_day))]
pub fn nepal_day(instant: UtDay) -> Option<u32>
    ensures { result ≡ nepal_day instant.0 }
{
    let date = npt_date(instant).ok()?;
    date.day_number().ok()
}

// The kala with a number. No From, since neither type is this crate's.
#[tactic(auto, using(crate::proofs::Kalas::named_last))]
pub fn kala_named(k: u16) -> Kala
    ensures { result ≡ kala_named k }
{
    match k {
        0 => Kala::Udaya,
        1 => Kala::Madhyanna,
        2 => Kala::Aparahna,
        3 => Kala::Pradosh,
        4 => Kala::Nishita,
        _ => Kala::Begins,
    }
}

// How often the question may still be asked anew.
#[tactic(auto, unfolding(rules::specs::Days::rank))]
fn rank_of(kala: Kala) -> u16
    ensures { result ≡ rank (kala_number kala) }
{
    match kala {
        Kala::Udaya | Kala::Begins => 0,
        _ => 1,
    }
}

fn is_begins(kala: Kala) -> bool
    ensures { result ≡ is_begins kala }
{
    matches!(kala, Kala::Begins)
}

// Sunrise and sunset of a day over Kathmandu.
fn sun_on(n: u32) -> Option<Span>
    ensures { span_is result ≡ sun_on n }
{
    noaa::events_on(KATHMANDU, n)
}

// Whether a tithi covers the instant of a kala, which the sun's events of a day give: its end does not count.
#[tactic(auto, unfolding(rules::specs::Days::holds))]
fn covers_kala(start: UtDay, end: UtDay, kala: Kala, today: Option<Span>) -> bool
    ensures { result ≡ holds (mapped (λ e. kala_at kala e.0 e.1) (span_is today)) (λ x. le start.0 x && lt x end.0) }
{
    match today {
        Some(Span { from, to }) => {
            let at = kalas::kala_at(kala, from, to);
            (start.0 <= at.0) & (at.0 < end.0)
        }
        None => false,
    }
}

// Whether a tithi covers the whole of a nishita: its end counts.
#[tactic(auto, unfolding(rules::specs::Days::holds))]
fn covers_night(start: UtDay, end: UtDay, night: Option<Span>) -> bool
    ensures { result ≡ holds (span_is night) (λ w. le start.0 w.0 && le w.1 end.0) }
{
    match night {
        Some(Span { from, to }) => (start.0 <= from.0) & (to.0 <= end.0),
        None => false,
    }
}

// The first of the days -1, 0, 1, 2 from the beginning whose kala, other than nishita, lies in the tithi.
fn first_by_kala(start: UtDay, end: UtDay, kala: Kala, begin: u32) -> Option<u32>
    requires { (is_nishita kala ≡ false) × (1 ≤ begin) × (begin < 3000000) }
    ensures { result ≡ claimed kathmandu start.0 end.0 (kala_number kala) begin }
{
    for n in begin - 1..begin + 3 {
        if covers_kala(start, end, kala, sun_on(n)) {
            return Some(n);
        }
    }
    None
}

// The first of the days -1, 0, 1, 2 from the beginning whose nishita lies in the tithi. The sun's events of each day are worked out once.
fn first_by_night(start: UtDay, end: UtDay, begin: u32) -> Option<u32>
    requires { (1 ≤ begin) × (begin < 3000000) }
    ensures { result ≡ claimed kathmandu start.0 end.0 nishita begin }
{
    let mut today = sun_on(begin - 1);
    for n in begin - 1..begin + 3 {
        let tomorrow = sun_on(n + 1);
        if covers_night(start, end, kalas::nishita_between(today, tomorrow)) {
            return Some(n);
        }
        today = tomorrow;
    }
    None
}

// The first of the days -1, 0, 1, 2 from the beginning that the tithi claims.
#[tactic(auto, using(crate::proofs::Kalas::nishita_is))]
fn first_claim(start: UtDay, end: UtDay, kala: Kala, begin: u32) -> Option<u32>
    requires { (1 ≤ begin) × (begin < 3000000) }
    ensures { result ≡ claimed kathmandu start.0 end.0 (kala_number kala) begin }
{
    if kalas::is_nishita(kala) {
        return first_by_night(start, end, begin);
    }
    first_by_kala(start, end, kala, begin)
}

// The day of a tithi from start to end that begins on day `begin`. Where no day is claimed the same is asked with udaya, which asks no further.
#[tactic(auto, unfolding(rules::specs::Days::asked_day, rules::specs::Days::or_else, rules::specs::Days::rank))]
fn festival_day(start: UtDay, end: UtDay, begin: u32, kala: Kala) -> u32
    requires { (1 ≤ begin) × (begin < 3000000) }
    ensures { result ≡ asked_day kathmandu (rank (kala_number kala)) start.0 end.0 (kala_number kala) begin }
{
    match first_claim(start, end, kala, begin) {
        Some(n) => n,
        None if rank_of(kala) == 0 => begin,
        None => festival_day(start, end, begin, Kala::Udaya),
    }
}

// Where a tithi that begins at an instant ends: the next tithi's first start from 0.1 to 2.5 days on.
fn end_of(tithi: u16, start: UtDay) -> Option<UtDay>
    requires { tithi ≤ 30 }
    ensures { first_says result ≡ end_after tithi start.0 }
{
    let next = search::next_tithi(tithi);
    search::first_start(next, UtDay(start.0 + 0.1), UtDay(start.0 + 2.5))
}

// The day of a festival, by its tithi, its kala's number and the instant at which the tithi begins.
#[tactic(auto, unfolding(rules::specs::Days::festival_day, rules::specs::Days::next), using(crate::proofs::Nepal::of_kala))]
pub fn festival_date(tithi: u16, kala: u16, start: UtDay) -> Option<u32>
    requires { (tithi ≤ 30) × (kala ≤ 5) }
    ensures { result ≡ festival_day kathmandu tithi kala start.0 }
{
    let begin = nepal_day(start)?;
    let named = kala_named(kala);
    if is_begins(named) {
        return Some(begin);
    }
    let end = end_of(tithi, start)?;
    Some(festival_day(start, end, begin, named))
}
