// One line of an input that comes in pieces, kept in a lent buffer.
ghost use Rattle.std.specs.Prelude.{◌≡◌, Some};
ghost use Rattle.text.specs.Kept.{Pushed, Fills};

// How many bytes of the line are kept, and none where it is too long and skipped to its line feed.
pub type Held = Option<usize>;

// Whether the line came to its line feed, and then the place in the piece after that.
#[derive(Clone, Copy)]
pub enum Filled {
    Feed(Held, usize),
    Open(Held),
}

// No byte yet.
pub fn nothing() -> Held
    ensures { result ≡ Some 0 }
{
    Some(0)
}

// One byte more of the line.
fn push(buffer: &mut [u8], held: Held, b: u8) -> Held
    ensures { Pushed buffer.old held b buffer.new result }
{
    let Some(kept) = held else {
        return held;
    };
    if kept < buffer.len() {
        buffer[kept] = b;
        Some(kept + 1)
    } else {
        None
    }
}

// The bytes of a piece from a place on, as far as the line goes.
pub fn fill(piece: &[u8], from: usize, buffer: &mut [u8], first: Held) -> Filled
    ensures { Fills piece.now from buffer.old «first» buffer.new result }
{
    let mut held = first;
    for i in from..piece.len() {
        let b = piece[i];
        if b == b'\n' {
            return Filled::Feed(held, i + 1);
        }
        held = push(buffer, held, b);
    }
    Filled::Open(held)
}
