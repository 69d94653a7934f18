// The resolved years that a state stores.
ghost use Rattle.std.specs.Prelude.{◌≡◌, true, [], ◌∷◌, ◌-◌};
ghost use Rattle.conversion.specs.Claims.{YearIn};
ghost use Rattle.conversion.specs.Flat.{accepted, flat};
ghost use Rattle.rules.specs.Rules.{rules_of, accepted_rules};
ghost use Rattle.festivals.specs.Kathmandu.{resolved_year};
ghost use Rattle.kept.specs.State.{year_of, anew, drawn};
ghost use Rattle.kept.specs.Held.{years, store_of};
ghost use Rattle.kept.specs.Inner.{Fresh, store_for};

use crate::Store;
use conversion::Table;
use festivals::years::{resolve_year, year_before};
use rules::lists::{Resolved, Years};

// No year's days.
const NO_DAYS: Resolved = Resolved { days: [0; 64] };

// No year.
#[tactic(auto, unfolding(crate::specs::Held::store_of))]
pub fn no_years() -> Store
    ensures { result ≡ store_of [] }
{
    Store {
        count: 0,
        year: 0,
        years: Years {
            before: NO_DAYS,
            this: NO_DAYS,
        },
    }
}

// A year alone.
#[tactic(auto, unfolding(crate::specs::Held::store_of))]
fn one_year(year: u16, this: Resolved) -> Store
    ensures { result ≡ store_of (year_of year this.days ∷ []) }
{
    Store {
        count: 1,
        year,
        years: Years {
            before: NO_DAYS,
            this,
        },
    }
}

// A year and the one before it.
#[tactic(auto, unfolding(crate::specs::Held::store_of))]
fn two_years(year: u16, before: Resolved, this: Resolved) -> Store
    ensures { result ≡ store_of (year_of (year - 1) before.days ∷ year_of year this.days ∷ []) }
{
    Store {
        count: 2,
        year,
        years: Years { before, this },
    }
}

// The stored years, worked out from an accepted table and accepted rules.
pub fn renewed(table: Table, rows: &[u16], rules: &[u16], store: Store) -> Store
    requires { (accepted table rows.now ≡ true) × (accepted_rules rules.now ≡ true) }
    ensures { result ≡ store_of (anew (flat table rows.now) rules.now (years store)) }
{
    let year = store.year;
    if store.count == 0 {
        return no_years();
    }
    let this = resolve_year(table, rows, rules, year);
    if store.count == 1 {
        return one_year(year, this);
    }
    let before = resolve_year(table, rows, rules, year_before(year));
    two_years(year, before, this)
}

// A year by the stored years, or else resolved.
fn year_from(table: Table, rows: &[u16], rules: &[u16], store: Store, year: u16) -> Resolved
    requires { (accepted table rows.now ≡ true) × (accepted_rules rules.now ≡ true) }
    ensures { Fresh (flat table rows.now) rules.now store
        → result.days ≡ resolved_year (flat table rows.now) (rules_of rules.now) year }
{
    if store.count == 0 {
        return resolve_year(table, rows, rules, year);
    }
    if store.year == year {
        return store.years.this;
    }
    if store.count == 1 {
        return resolve_year(table, rows, rules, year);
    }
    if year_before(store.year) == year {
        return store.years.before;
    }
    resolve_year(table, rows, rules, year)
}

// The years that a month of the table draws computed rules from, taken from the stored years where they are there.
pub fn drawn_years(
    table: Table,
    rows: &[u16],
    rules: &[u16],
    store: Store,
    year: u16,
    month: u16,
) -> Store
    requires rows_value { (accepted table rows.now ≡ true) × (accepted_rules rules.now ≡ true) }
    requires year_in { YearIn (flat table rows.now) year }
    ensures { Fresh (flat table rows.now) rules.now store
        → result ≡ store_for (flat table rows.now) rules.now (drawn (flat table rows.now) year month) }
{
    let this = year_from(table, rows, rules, store, year);
    let late = 2 < month;
    if late || year <= table.first_year {
        return one_year(year, this);
    }
    let before = year_from(table, rows, rules, store, year_before(year));
    two_years(year, before, this)
}
