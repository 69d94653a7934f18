// Whether a file of names is in form.
ghost use Rattle.std.specs.Prelude.{◌≡◌};
ghost use Rattle.naming.specs.Names as Names;
ghost use Rattle.naming.specs.Names.{checked};

use crate::lines;
use crate::lines::Fault;

// Whether the file begins with a byte order mark.
fn marked(file: &[u8]) -> bool
    ensures { result ≡ Names.marked file.now }
{
    text::stands(file, 0, 239) & (text::stands(file, 1, 187) & text::stands(file, 2, 191))
}

// Whether the file is in form. One that is not tells its first line that is not, counted from 1, and what is wrong there.
pub fn check(file: &[u8]) -> Result<(), (usize, Fault)>
    ensures { result ≡ checked file.now }
{
    if marked(file) {
        return Err((1, Fault::Mark));
    }
    let mut at = 0;
    let mut line = 1;
    let mut least: u32 = 0;
    // A loop: the place moves by a line at a turn.
    while at < file.len() {
        let end = lines::line_end(file, at);
        match lines::judge(&file[at..end], least) {
            Err(fault) => return Err((line, fault)),
            Ok(number) => least = number as u32 + 1,
        }
        if end == file.len() {
            return Err((line, Fault::NoFeed));
        }
        at = end + 1;
        line += 1;
    }
    Ok(())
}
