// A page of doubtful new moons and what it counts.
ghost use Rattle.std.specs.Prelude.{◌≡◌, true, false};
ghost use Rattle.output.specs.Pieces.{Puts};
ghost use Rattle.doubtful.specs.Inner.{with_out};
ghost use Rattle.doubtful.specs.Tallies.{one_more, first_page, page_with, tally_of, with_heading, more_if, doubted, heading_pieces, near_pieces, count_pieces};

use output::Out;

// What is written, whether the year of the lines has its heading, and how many new moons are near a boundary, of these on a month's first day; how many
// open nothing; and how many lunar months none opens.
#[derive(Clone, Copy)]
pub struct Page {
    pub out: Out,
    pub headed: bool,
    pub near: u32,
    pub first: u32,
    pub second: u32,
    pub empty: u32,
}

// Nothing yet.
pub fn begin() -> Page
    ensures { result ≡ first_page }
{
    page_with(Out {
        at: 0,
        begun: false,
        failed: false,
    })
}

// A page on which other things are written.
pub fn page_with(o: Out) -> Page
    ensures { result ≡ page_with o }
{
    Page {
        out: o,
        headed: false,
        near: 0,
        first: 0,
        second: 0,
        empty: 0,
    }
}

// One more, of far fewer than that.
#[tactic(auto, unfolding(crate::specs::Tallies::one_more))]
pub fn more(n: u32) -> u32
    ensures { result ≡ one_more «n» }
{
    if n < 4000000000 { n + 1 } else { n }
}

// One more where it counts.
fn more_if(counts: bool, n: u32) -> u32
    ensures { result ≡ more_if counts «n» }
{
    if counts { more(n) } else { n }
}

// The page with what was written since, and its heading.
fn written(p: Page, o: Out) -> Page
    ensures { result ≡ with_out true p o }
{
    Page {
        out: o,
        headed: true,
        ..p
    }
}

// The heading of a year, once.
pub fn put_heading(p: Page, out: &mut [u8], year: u16) -> Page
    ensures puts { Puts out.old p.out (heading_pieces p.headed year) out.new result.out }
    ensures result_value { tally_of result ≡ with_heading true (tally_of p) }
{
    if p.headed {
        return p;
    }
    let o = p.out;
    let a = output::put_labelled(o, out, b"BS ", year as u64);
    written(p, output::put_text(a, out, b"\n"))
}

// The page with one doubtful new moon more.
pub fn tallied(p: Page, o: Out, near: bool, first: bool, opens: bool) -> Page
    ensures { (result.out ≡ o) × (tally_of result ≡ doubted near first opens (tally_of p)) }
{
    Page {
        out: o,
        headed: true,
        near: more_if(near, p.near),
        first: more_if(first, p.first),
        second: more_if(!opens, p.second),
        empty: p.empty,
    }
}

// The page before the next year.
pub fn unheaded(p: Page) -> Page
    ensures { result ≡ with_out false p p.out }
{
    Page { headed: false, ..p }
}

// How many new moons are near a boundary.
fn put_near_counts(p: Page, o: Out, out: &mut [u8]) -> Out
    ensures { Puts out.old o (near_pieces p.near p.first) out.new result }
{
    let a = output::put_number(o, out, p.near as u64);
    let b = output::put_labelled(
        a,
        out,
        b" doubtful new moons, on a month's first day ",
        p.first as u64,
    );
    output::put_text(b, out, b"\n")
}

// The counts of a page, two lines.
pub fn put_counts(p: Page, o: Out, out: &mut [u8]) -> Out
    ensures { Puts out.old o (count_pieces (tally_of p)) out.new result }
{
    let a = put_near_counts(p, o, out);
    let b = output::put_labelled(a, out, b"new moons that open nothing ", p.second as u64);
    let c = output::put_labelled(
        b,
        out,
        b"; lunar months that nothing opens ",
        p.empty as u64,
    );
    output::put_text(c, out, b"\n")
}
