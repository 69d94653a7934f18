// The lines bs=Y-M-D and ad=YYYY-MM-DD, read.
ghost use Rattle.std.specs.Prelude.{◌≡◌};
ghost use Rattle.convert.specs.Lines.{line_form};

// What a line is, without its line feed.
#[derive(Clone, Copy)]
pub enum Line {
    Bs(u16, u16, u16),
    Ad(u16, u16, u16),
}

// Which of the two forms a whole line has, and its numbers; a line of another form is none.
pub fn read_line(s: &[u8]) -> Option<Line>
    ensures { result ≡ line_form s.now }
{
    if let Some(c) = text::start().pass(s, b"bs=") {
        let (y, m, d) = text::dashed(s, c, 0, 0)?;
        return Some(Line::Bs(y, m, d));
    }
    let c = text::start().pass(s, b"ad=")?;
    let (y, m, d) = text::dashed(s, c, 4, 2)?;
    Some(Line::Ad(y, m, d))
}
