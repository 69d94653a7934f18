// The kalas of a day, by the sun's events. Each function serves every f64.
ghost use Rattle.std.specs.Prelude.{◌≡◌};
ghost use Rattle.panchanga.specs.Kalas.{kala_at, is_nishita, muhurta, nishita_between, middle};
ghost use Rattle.panchanga.specs.Answers.{span_is};

use super::{Kala, Span};
use gregorian::UtDay;

// The instant of a kala by the day's sunrise and sunset. Whoever means nishita or begins asks otherwise: here they give sunrise.
pub fn kala_at(kala: Kala, rise: UtDay, set: UtDay) -> UtDay
    ensures { result.0 ≡ kala_at kala rise.0 set.0 }
{
    match kala {
        Kala::Udaya => rise,
        Kala::Madhyanna => UtDay(rise.0 + (set.0 - rise.0) * 0.4),
        Kala::Aparahna => UtDay(rise.0 + (set.0 - rise.0) * 0.6),
        Kala::Pradosh => UtDay(set.0 + 45.0 / 1440.0),
        Kala::Nishita => rise,
        Kala::Begins => rise,
    }
}

// Whether a kala is nishita, which is a span and lies in the night.
pub fn is_nishita(kala: Kala) -> bool
    ensures { result ≡ is_nishita kala }
{
    matches!(kala, Kala::Nishita)
}

// The instant between a sunset and the next sunrise at which so many of the night's fifteen muhurtas are over.
fn muhurta(over: u32, set: f64, next: f64) -> f64
    ensures { result ≡ muhurta over set next }
{
    set + (next - set) * over as f64 / 15.0
}

// The nishita of a day, by the sun's events of that day and of the next: the eighth muhurta of the night.
pub fn nishita_between(today: Option<Span>, tomorrow: Option<Span>) -> Option<Span>
    ensures { span_is result ≡ nishita_between (span_is today) (span_is tomorrow) }
{
    let set = today?.to;
    let next = tomorrow?.from;
    Some(Span {
        from: UtDay(muhurta(7, set.0, next.0)),
        to: UtDay(muhurta(8, set.0, next.0)),
    })
}

// The middle of two instants.
pub fn middle(from: UtDay, to: UtDay) -> UtDay
    ensures { result.0 ≡ middle (from.0, to.0) }
{
    UtDay((from.0 + to.0) / 2.0)
}
