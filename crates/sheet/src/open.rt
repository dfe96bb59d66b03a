ghost use Rattle.std.specs.Prelude.{◌≡◌, ◌+◌, ◌*◌};
ghost use Rattle.std.specs.Str.{bytes_eq};
ghost use Rattle.sheet.specs.Layout.{code_bytes};
ghost use Rattle.sheet.specs.Opening.{header_in, counts_in};

use crate::layout::Counts;
use crate::write::entries_match;
use vocabulary::code::Word;

// The eight numbers of a header, as the bytes have them.
#[derive(Clone, Copy, PartialEq, Eq, Debug)]
pub struct Header {
    pub version: u16,
    pub nodes: u16,
    pub words: u16,
    pub nodes_at: u16,
    pub code_at: u16,
    pub total: u16,
    pub spare: u16,
    pub last: u16,
}

// A 16-bit number, low byte first.
fn number(low: u8, high: u8) -> u16
    ensures { result ≡ low + high * 256 }
{
    u16::from_le_bytes([low, high])
}

// The header of a sheet, unless the sheet is too short for one.
pub fn open_header(sheet: &[u8]) -> Option<Header>
    ensures { result ≡ header_in sheet.now }
{
    let [
        v0,
        v1,
        n0,
        n1,
        w0,
        w1,
        s0,
        s1,
        c0,
        c1,
        t0,
        t1,
        x0,
        x1,
        y0,
        y1,
        _rest @ ..,
    ] = sheet
    else {
        return None;
    };
    Some(Header {
        version: number(*v0, *v1),
        nodes: number(*n0, *n1),
        words: number(*w0, *w1),
        nodes_at: number(*s0, *s1),
        code_at: number(*c0, *c1),
        total: number(*t0, *t1),
        spare: number(*x0, *x1),
        last: number(*y0, *y1),
    })
}

// The counts of a sheet whose header is the one that they give, and which is as long as the header says.
pub fn frame(sheet: &[u8]) -> Option<Counts>
    ensures { result ≡ counts_in sheet.now }
{
    let header = open_header(sheet)?;
    let counts = Counts {
        nodes: header.nodes,
        words: header.words,
    };
    let total = counts.total();
    let given = Header {
        version: 1,
        nodes: counts.nodes,
        words: counts.words,
        nodes_at: 16,
        code_at: u16::try_from(counts.code_at()).ok()?,
        total: u16::try_from(total).ok()?,
        spare: 0,
        last: 0,
    };
    if header == given && sheet.len() == total {
        Some(counts)
    } else {
        None
    }
}

// Whether these bytes are those of the code, and no more.
pub fn code_matches(part: &[u8], code: &[Word]) -> bool
    ensures { result ≡ bytes_eq part.now (code_bytes code.now) }
{
    entries_match(part, code)
}
