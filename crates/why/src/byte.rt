// Why one byte of a file is what it is, and up to where it stays so.
ghost use Rattle.std.specs.Prelude.{◌≡◌, length, eqb};
ghost use Rattle.page.specs.Choice.{pick};
ghost use Rattle.why.specs.Codes.{from_of, code_in};
ghost use Rattle.why.specs.Reasons.{byte_at};
ghost use Rattle.why.specs.Answers.{span_of, found_in, shown_by, why_on, why_left};

use crate::answer::Why;
use crate::reason::Reason;
use crate::setter::setter;
use crate::spans::{fill, live_file};
use crate::sweep::CODE_VALUES;
use chunk::moment::Moment;
use page::geometry::Geometry;
use page::number::ObjectId;
use page::refusal::Short;

// A span of a file: where it begins, and the reason of its first byte.
#[derive(Clone, Copy)]
pub struct Span {
    pub from: u64,
    pub reason: Reason,
}

// The code of the span that a position lies in, and where that ends.
#[derive(Clone, Copy)]
pub(crate) struct Found {
    pub code: u64,
    pub until: u64,
}

// Where the span of a row begins; this and the next take a row apart again, a line each.
fn from_of(row: u64) -> u64
    ensures { result ≡ from_of row }
{
    row / CODE_VALUES
}

// The code of its reason.
fn code_in(row: u64) -> u64
    ensures { result ≡ code_in row }
{
    row % CODE_VALUES
}

// The data byte that a position is in its chunk, with so many data bytes to a page; 0 where a page has none, as the definition divides.
#[tactic(auto, using(crate::proofs::Tests::cases))]
fn byte_at(data: u32, x: u64) -> u32
    ensures { result ≡ pick (eqb «data» 0) 0 (byte_at «data» x) }
{
    x.checked_rem(u64::from(data)).unwrap_or(0) as u32
}

impl Span {
    // The span of a row, whose data byte goes by the geometry too, so that no From gives it.
    #[tactic(auto, using(crate::proofs::Tests::cases))]
    pub fn of(g: Geometry, row: u64) -> Span
        ensures { result ≡ span_of g.layout.«data» row }
    {
        let from = from_of(row);
        Span {
            from,
            reason: Reason::of(code_in(row), byte_at(g.layout.data, from)),
        }
    }
}

// The span of these rows that position x lies in, of a file of this size. They were just made one by one, so that a search by halves would save
// nothing. No reason has the code 0, which stands for no row.
fn find(rows: &[u64], x: u64, size: u64) -> Found
    ensures { result ≡ found_in x size 0 rows.now }
{
    let mut code: u64 = 0;
    for &row in rows {
        let from = from_of(row);
        if x < from {
            return Found { code, until: from };
        }
        code = code_in(row);
    }
    Found { code, until: size }
}

// Why byte x of object o of a dump is what it is at a moment, with the words that the file's marks need; they are cleared.
pub fn why(
    dump: &[u8],
    g: Geometry,
    m: Moment,
    o: ObjectId,
    x: u64,
    rows: &mut [u64],
) -> Result<Why, Short<u32>>
    ensures value { result ≡ why_on g dump.now m o.0 x (length rows.old) }
    ensures rows_after { rows.new ≡ why_left g dump.now m o.0 rows.old }
{
    let f = live_file(dump, g, m, o, rows.len())?;
    let room = &mut rows[..f.marks as usize];
    if f.size <= x {
        room.fill(0);
        return Ok(Why {
            reason: Reason::PastEnd(setter(dump, g, f.takes, f.pages, o, f.header, f.size)),
            until: u64::MAX,
        });
    }
    let count = fill(dump, g, f.takes, f.pages, o, f.header, f.size, room);
    let found = find(&room[..count], x, f.size);
    room.fill(0);
    Ok(Why {
        reason: Reason::of(found.code, byte_at(g.layout.data, x)),
        until: found.until,
    })
}

// The byte that is shown for a reason: that of the page that holds it, and for every other 0, as a read fills it.
#[tactic(auto, using(crate::proofs::Tests::cases))]
pub fn shown(dump: &[u8], g: Geometry, r: Reason) -> u8
    ensures { result ≡ shown_by g dump.now r }
{
    match r {
        Reason::Held(p, at) => {
            if !g.holds(dump.len(), p) || g.layout.data <= at {
                return 0;
            }
            let i = (p.0 as usize) * g.layout.page_len() + (at as usize);
            dump[i]
        }
        Reason::NoCopy | Reason::Cut(_) | Reason::Count(_) | Reason::PastEnd(_) => 0,
    }
}
