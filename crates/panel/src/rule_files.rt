// Rules as a text file, read and written.
ghost use Rattle.std.specs.Prelude.{◌≡◌};
ghost use Rattle.rulefile.specs.Files.{read_into, write_into};
ghost use Rattle.panel.specs.Boundary.{line_in, number_and, gives_told, gives_read, gives_written};

use crate::give;
use paper::{Answer, Refusal, Told};

// The number of a refusal, and the line that it tells where that is asked for.
fn give_line(refusal: Refusal, line: &mut usize) -> u16
    ensures { (result, line.new) ≡ number_and line_in refusal line.old }
{
    if let Some(Told::Line(k)) = refusal.told() {
        *line = k;
    }
    refusal.number()
}

// The number of rules where it is asked for, and with 12 the line.
fn give_rules(answer: Answer<usize>, count: &mut usize, line: &mut usize) -> u16
    ensures { (result, (count.new, line.new)) ≡ gives_told line_in answer (λ n. n)
        (count.old, line.old) }
{
    match answer {
        Ok(n) => {
            *count = n;
            0
        }
        Err(k) => give_line(k, line),
    }
}

// The rules of a text file, eight numbers each, at the front of a lent buffer, and how many; with 12 the line that is out of form: 12, 2, 9.
#[unsafe(no_mangle)]
pub extern "C" fn panel_read_rules(
    text: &[u8],
    rules: &mut [u16],
    count: &mut usize,
    line: &mut usize,
) -> u16
    ensures { ((result, (count.new, line.new)), rules.new)
        ≡ gives_read (read_into text.now rules.old) (count.old, line.old) }
{
    give_rules(rulefile::read_rules(text, rules), count, line)
}

// The text file of lent rules at the front of a lent buffer, and how many bytes: 2, 9.
#[unsafe(no_mangle)]
pub extern "C" fn panel_write_rules(rules: &[u16], text: &mut [u8], bytes: &mut usize) -> u16
    ensures { ((result, bytes.new), text.new)
        ≡ gives_written (write_into rules.now text.old) bytes.old }
{
    give(rulefile::write_rules(rules, text), bytes)
}
