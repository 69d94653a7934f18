// Two year tables before they are used: the first rule that one breaks, in words too, and how far one is the beginning of the other.
#![tactic(auto)]

mod broken;
mod words;

ghost use Rattle.std.specs.Prelude.{◌≡◌};
ghost use Rattle.tables.specs.Shared as Shared;

pub use broken::{Broken, first_broken};
pub use words::{put_change_line, put_exchanged_line, put_refusal};

// How many numbers two tables have in common from the front.
pub fn shared(old: &[u16], new: &[u16]) -> usize
    ensures { result ≡ Shared.shared old.now new.now }
{
    old.iter().zip(new).take_while(|(a, b)| **a == **b).count()
}
