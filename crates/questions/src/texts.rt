// Questions about the rules as a text file: `readrules` and `writerules`.
ghost use Rattle.rulefile.specs.Files.{read_into, write_into};
ghost use Rattle.output.specs.Gathered.{Gathers};
ghost use Rattle.questions.specs.Texts.{read_words, written_words, read_rules_words, write_rules_words};

use asked::Words;
use output::Out;
use replies::Reply;

// The rules of the text, and the buffer after the call.
fn put_read(o: Out, out: &mut [u8], text: &[u8], list: &mut [u16]) -> Out
    ensures { Gathers out.old o (read_words (read_into text.now list.old)) out.new result }
{
    let counted = Reply::said(
        rulefile::read_rules(text, list),
        |n| Reply::Number(n as u64),
    )
    .put(o, out);
    replies::put_list(counted, out, list)
}

// The file of the rules, and the buffer after the call.
fn put_written(o: Out, out: &mut [u8], rules: &[u16], list: &mut [u8]) -> Out
    ensures { Gathers out.old o (written_words (write_into rules.now list.old)) out.new result }
{
    let counted = Reply::said(
        rulefile::write_rules(rules, list),
        |n| Reply::Number(n as u64),
    )
    .put(o, out);
    replies::put_bytes(counted, out, list)
}

// The answer to a line `readrules` in form, or a question mark.
pub fn read(o: Out, out: &mut [u8], w: Words, text: &[u8]) -> Out
    ensures { Gathers out.old o (read_rules_words text.now w) out.new result }
{
    if w.form == 1 {
        let mut buffer = [7u16; 65535];
        let n = w.small(1) as usize;
        return put_read(o, out, text, &mut buffer[..n]);
    }
    Reply::Unformed.put(o, out)
}

// The answer to a line `writerules` in form, or a question mark.
pub fn write(o: Out, out: &mut [u8], w: Words, rules: &[u16]) -> Out
    ensures { Gathers out.old o (write_rules_words rules.now w) out.new result }
{
    if w.form == 1 {
        let mut buffer = [7u8; 65535];
        let n = w.small(1) as usize;
        return put_written(o, out, rules, &mut buffer[..n]);
    }
    Reply::Unformed.put(o, out)
}
