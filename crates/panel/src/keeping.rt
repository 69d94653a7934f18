// A kept state in an array of the caller's, of 4,488 numbers or more: starting it, its rules, its rows, and which years it has stored.
ghost use Rattle.std.specs.Prelude.{◌≡◌, length, nat_lt};
ghost use Rattle.kept.specs.State.{year_numbers};
ghost use Rattle.kept.specs.Operations.{take_rules, append_row, forgotten};
ghost use Rattle.kept.specs.Held.{stored_says};
ghost use Rattle.shelf.specs.Numbers.{laid};
ghost use Rattle.panel.specs.Boundary.{code, gives, table};
ghost use Rattle.panel.specs.Keeping.{Keeping, start_in, kept_done, kept_years, placed_by};

use crate::{code, table_of};
use kept::{After, StoredYears};
use paper::Refusal;

// Whether an array is too short for a state.
pub fn is_short(state: &[u16]) -> bool
    ensures { result ≡ nat_lt (length state.now) 4488 }
{
    state.len() < 4488
}

// The array with the state after an answer; a refusal leaves it.
pub fn keep<T: Copy>(asked: &After<T>, state: &mut [u16])
    ensures { state.new ≡ placed_by asked.now.answer asked.now.state state.old }
{
    if asked.answer.is_ok() {
        shelf::put(asked.state, state);
    }
}

// The number of an operation; one that is done leaves the array with the state after it.
fn give_done(done: &After<()>, state: &mut [u16]) -> u16
    ensures code { result ≡ code done.now.answer }
    ensures state { state.new ≡ placed_by done.now.answer done.now.state state.old }
{
    keep(done, state);
    code(done.answer)
}

// How many years are stored, the first and the last, where they are asked for.
fn give_stored(years: StoredYears, count: &mut u16, first: &mut u16, last: &mut u16) -> u16
    ensures { (result, (count.new, first.new, last.new)) ≡ kept_years (stored_says years) }
{
    match years {
        StoredYears::Nothing => {
            *count = 0;
            *first = 0;
            *last = 0;
            0
        }
        StoredYears::One(y) => {
            *count = 1;
            *first = y;
            *last = y;
            0
        }
        StoredYears::Two(y, z) => {
            *count = 2;
            *first = y;
            *last = z;
            0
        }
    }
}

// A state with no row, no rules and no stored year: 1, 9 (the array).
#[unsafe(no_mangle)]
pub extern "C" fn panel_kept_start(
    first_year: u16,
    first_ad_year: u16,
    first_ad_month: u16,
    first_ad_day: u16,
    state: &mut [u16],
) -> u16
    ensures { (result, state.new) ≡ gives (start_in (table first_year first_ad_year first_ad_month first_ad_day) state.old)
        (laid state.old) state.old }
{
    let started = kept::start(table_of(first_year, first_ad_year, first_ad_month, first_ad_day));
    if let Err(k) = started.answer {
        return k.number();
    }
    if is_short(state) {
        return Refusal::NoRoom.number();
    }
    shelf::put(started.state, state);
    0
}

// Other rules in place of the state's own, and no stored year: 9 (the array), 2.
#[unsafe(no_mangle)]
pub extern "C" fn panel_kept_take_rules(state: &mut [u16], rules: &[u16]) -> u16
    ensures { Keeping state.old result state.old state.new
        (λ σ. kept_done state.old (take_rules σ rules.now)) }
{
    if is_short(state) {
        return Refusal::NoRoom.number();
    }
    let done = kept::take_rules(shelf::kept_of(state), rules);
    give_done(&done, state)
}

// One year row more, and the stored years resolved with it: 9 (the array), 1.
#[unsafe(no_mangle)]
pub extern "C" fn panel_kept_append_row(state: &mut [u16], row: &[u16]) -> u16
    ensures { Keeping state.old result state.old state.new
        (λ σ. kept_done state.old (append_row σ row.now)) }
{
    if is_short(state) {
        return Refusal::NoRoom.number();
    }
    let done = kept::append_row(shelf::kept_of(state), row);
    give_done(&done, state)
}

// The state without its stored years: 9 (the array).
#[unsafe(no_mangle)]
pub extern "C" fn panel_kept_forget(state: &mut [u16]) -> u16
    ensures { Keeping state.old result state.old state.new
        (λ σ. (0, laid state.old (forgotten σ))) }
{
    if is_short(state) {
        return Refusal::NoRoom.number();
    }
    let after = kept::forget(shelf::kept_of(state));
    shelf::put(after, state);
    0
}

// How many years are stored, the first and the last: 9 (the array).
#[unsafe(no_mangle)]
pub extern "C" fn panel_kept_stored(
    state: &[u16],
    count: &mut u16,
    first: &mut u16,
    last: &mut u16,
) -> u16
    ensures { Keeping state.now result (count.old, first.old, last.old)
        (count.new, first.new, last.new) (λ σ. kept_years (year_numbers σ.stored)) }
{
    if is_short(state) {
        return Refusal::NoRoom.number();
    }
    give_stored(kept::stored(shelf::kept_of(state)), count, first, last)
}
