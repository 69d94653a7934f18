// New moons beside the beginning of a solar month, where the engine's rule and the almanac may part: a page of them, year by year.
#![tactic(auto)]

mod page;
mod years;

pub use page::{Page, begin, page_with, put_counts};
pub use years::{put_year, put_years};
