// What a rule file in form may say that the clerk did not mean, told as warnings: the same rule twice, a name that another festival has, a name without text,
// a given date that is no day of its month, and one for a name that has a fixed date too. Knows no file: rules, names and a year table are lent.
#![tactic(auto)]

mod finding;
mod search;
mod words;

pub use words::put_warnings;
