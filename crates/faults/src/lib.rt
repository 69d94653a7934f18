// What is wrong with a rule file (docs/RULES.md), in words too: the line that is not the one due; or where its rules first break a rule of acceptance,
// which rule, which field and what is allowed there.
#![tactic(auto)]

mod first;
mod lines;
mod words;

pub use first::{Fault, Field, first_fault};
pub use lines::put_line_fault;
pub use words::{line_of, put_line, put_refusal, put_rule_lines};
