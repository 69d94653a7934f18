// What a program writes: lines of words, and pages of texts, numbers and dates. It is gathered in a lent buffer, which is written to standard output
// when it is nearly full.
#![tactic(auto)]

ghost use Rattle.std.specs.Prelude.{◌≡◌, true, false, [], ◌∷◌, ◌++◌, ◌+◌, ◌≤◌, length};
ghost use Rattle.text.specs.Digits.{digits};
ghost use Rattle.text.specs.Quoted.{bytes};
ghost use Rattle.text.specs.Written.{Wrote};
ghost use Rattle.output.specs.Floats.{float_text};
ghost use Rattle.output.specs.Gathered as Gathered;
ghost use Rattle.output.specs.Gathered.{Gathers, Joined, gathered, ended, space_of};
ghost use Rattle.output.specs.Octets.{octets_text};

mod floats;
mod octets;
mod page;

pub use page::{
    put_clock, put_date, put_either, put_labelled, put_number, put_span, put_text, put_year_month,
};

// The descriptors of standard output and standard error.
pub const STDOUT: i32 = 1;

pub const STDERR: i32 = 2;

// So many bytes go in one piece: their digits are a word of at most thirty bytes.
const IN_ONE_PIECE: usize = 15;

// How many bytes of the buffer are taken, whether the line has a word, and whether a write failed.
#[derive(Clone, Copy)]
pub struct Out {
    pub at: usize,
    pub begun: bool,
    pub failed: bool,
}

// Nothing yet.
pub fn empty() -> Out
    ensures { (result.at ≡ 0) × (result.begun ≡ false) × (result.failed ≡ false) }
{
    Out {
        at: 0,
        begun: false,
        failed: false,
    }
}

// A space before every word but the first.
fn put_space(buffer: &mut [u8], at: usize, begun: bool) -> usize
    ensures { Wrote buffer.old at (space_of begun) buffer.new result }
{
    if begun {
        text::put(buffer, at, b" ")
    } else {
        at
    }
}

impl Out {
    // Writes out what is gathered. After a write that failed nothing more is written.
    pub fn flush(self, buffer: &[u8]) -> Out
        ensures { (result.at ≡ 0) × (result.begun ≡ self.begun) }
    {
        let at = self.at;
        let begun = self.begun;
        if self.failed {
            return Out {
                at: 0,
                begun,
                failed: true,
            };
        }
        if at <= buffer.len() {
            let written = io::write_all(STDOUT, &buffer[..at]);
            return Out {
                at: 0,
                begun,
                failed: !written,
            };
        }
        Out {
            at: 0,
            begun,
            failed: true,
        }
    }

    // Writes out what is gathered, for the last time. What could not be written, now or before, is told on standard error.
    pub fn finish(self, buffer: &[u8]) -> Out
        ensures { (result.at ≡ 0) × (result.begun ≡ self.begun) }
    {
        let last = self.flush(buffer);
        if last.failed {
            io::write_all(STDERR, b"standard output cannot be written\n");
        }
        last
    }

    // Room for so many bytes, where the buffer has that many.
    pub fn room(self, buffer: &[u8], bytes: usize) -> Out
        ensures bytes_in_bounds { bytes ≤ length buffer.now → result.at + bytes ≤ length buffer.now }
        ensures at_value { (result.at ≡ Gathered.room «bytes» buffer.now self.at) × (result.begun ≡ self.begun) }
    {
        if buffer.len() < self.at {
            return self.flush(buffer);
        }
        if buffer.len() - self.at < bytes {
            return self.flush(buffer);
        }
        self
    }

    // Room for a word, and the space before it.
    fn space(self, buffer: &mut [u8]) -> Out
        ensures wrote { Wrote buffer.old (Gathered.room 32 buffer.old self.at) (space_of self.begun)
            buffer.new result.at }
        ensures begun_value { result.begun ≡ true }
    {
        let o = self.room(buffer, 32);
        Out {
            at: put_space(buffer, o.at, o.begun),
            begun: true,
            failed: o.failed,
        }
    }

    // A byte more of a word.
    fn join(self, buffer: &mut [u8], b: u8) -> Out
        ensures { Joined buffer.old self (b ∷ []) buffer.new result }
    {
        let o = self.room(buffer, 32);
        let one = [b];
        Out {
            at: text::put(buffer, o.at, &one),
            begun: true,
            failed: o.failed,
        }
    }

    // Bytes more of a word.
    fn join_all(self, buffer: &mut [u8], text: &[u8]) -> Out
        ensures { Joined buffer.old self text.now buffer.new result }
    {
        let mut o = self;
        for b in text {
            o = o.join(buffer, *b);
        }
        o
    }

    // The hexadecimal digits of bytes, more of a word.
    fn join_octets(self, buffer: &mut [u8], list: &[u8]) -> Out
        ensures { Joined buffer.old self (octets_text list.now) buffer.new result }
    {
        let mut o = self;
        for b in list {
            let mut pair = [0u8; 2];
            octets::put_octet(&mut pair, 0, *b);
            o = o.join_all(buffer, &pair);
        }
        o
    }

    // A word.
    pub fn word(self, buffer: &mut [u8], word: &[u8]) -> Out
        ensures { Gathers buffer.old self (word.now ∷ []) buffer.new result }
    {
        let o = self.space(buffer);
        if 30 < word.len() {
            return o.join_all(buffer, word);
        }
        Out {
            at: text::put(buffer, o.at, word),
            begun: true,
            failed: o.failed,
        }
    }

    // Bytes as one word, two hexadecimal digits each.
    pub fn octets(self, buffer: &mut [u8], list: &[u8]) -> Out
        ensures { Gathers buffer.old self (octets_text list.now ∷ []) buffer.new result }
    {
        let o = self.space(buffer);
        if IN_ONE_PIECE < list.len() {
            return o.join_octets(buffer, list);
        }
        Out {
            at: octets::put_octets(buffer, o.at, list),
            begun: true,
            failed: o.failed,
        }
    }

    // A decimal number.
    pub fn number(self, buffer: &mut [u8], n: u64) -> Out
        ensures { Gathers buffer.old self (digits «n» ∷ []) buffer.new result }
    {
        let o = self.space(buffer);
        Out {
            at: text::put_decimal(buffer, o.at, n),
            begun: true,
            failed: o.failed,
        }
    }

    // A decimal number behind a minus sign.
    pub fn negative(self, buffer: &mut [u8], n: u64) -> Out
        ensures { Gathers buffer.old self ((bytes "-" ++ digits «n») ∷ []) buffer.new result }
    {
        let o = self.space(buffer);
        let at = text::put(buffer, o.at, b"-");
        Out {
            at: text::put_decimal(buffer, at, n),
            begun: true,
            failed: o.failed,
        }
    }

    // A float by its bits, or nan.
    pub fn float(self, buffer: &mut [u8], x: f64) -> Out
        ensures { Gathers buffer.old self (float_text x ∷ []) buffer.new result }
    {
        let o = self.space(buffer);
        Out {
            at: floats::put_float(buffer, o.at, x),
            begun: true,
            failed: o.failed,
        }
    }

    // The end of the line, if it has a word.
    pub fn end(self, buffer: &mut [u8]) -> Out
        ensures { gathered buffer.new result ≡ ended (gathered buffer.old self) }
    {
        if !self.begun {
            return self;
        }
        let o = self.room(buffer, 32);
        Out {
            at: text::put(buffer, o.at, b"\n"),
            begun: false,
            failed: o.failed,
        }
    }
}
