// Notes on a new moon: how near it lies to the beginning of a solar month, and the lines that say so, with the rules that hang on it.
#![tactic(auto)]

mod lines;
mod moons;

pub use lines::{put_beside, put_moment, put_month_rules, put_no_moon, put_opening};
pub use moons::{date_of, near};
