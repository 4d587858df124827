// The walks down an object's chain that chunk lookups take, and steps that other walks take too.
ghost use Rattle.std.specs.Prelude.{◌≡◌, true, false, not, ◌&&◌, ◌+◌, ◌≤◌, None, Err};
ghost use Rattle.page.specs.Choice.{pick};
ghost use Rattle.page.specs.Records.{is_header, record_at};
ghost use Rattle.page.specs.declared.record.Record.TheVariants as Record;
ghost use Rattle.chunk.specs.Records.{is_copy};
ghost use Rattle.chunk.specs.Cuts.{cut_of, lower, hides};
ghost use Rattle.index.specs.Chains.{top};
ghost use Rattle.index.specs.Walks.{records_in, headless, met_by, cut_by, reach, seek, under, below};

use crate::cells::link_of;
use crate::chains::{Role, Step, TOP, follow};
use chunk::answer::{Chunk, Looked, Visited};
use chunk::cut::{Cut, cut_of, hides, lower};
use chunk::lookup::valid_of;
use chunk::record::{base_of, end_of, order_of, sequence_of};
use page::geometry::Geometry;
use page::number::{ChunkNumber, ObjectId, PageNumber};
use page::record::{Data, Record, record_at};
use page::refusal::Refusal;

// What a walk down to an object's newest header reached: the header, the largest end of the data met, the first copy met of a chunk, and the
// records visited.
#[derive(Clone, Copy)]
pub struct Top {
    pub page: PageNumber,
    pub end: u64,
    pub met: Option<PageNumber>,
    pub visits: u32,
}

// The newest header reached; or why none.
pub type Reached = Result<Top, Visited<Refusal>>;

// Why a chain that ends has no header, after so many records: no record at all, or data records only.
pub(crate) fn headless(visits: u32) -> Visited<Refusal>
    ensures { Err result ≡ headless visits }
{
    if visits == 0 {
        return Refusal::NoObject.into();
    }
    Visited {
        answer: Refusal::NoHeader,
        visits,
    }
}

// The first copy met of chunk c, with page q too, which has this data.
fn first_met(met: Option<PageNumber>, c: ChunkNumber, q: PageNumber, d: Data) -> Option<PageNumber>
    ensures { result ≡ met_by (is_copy c.0 (Record.Data d)) q.0 met }
{
    match met {
        None if d.chunk == c => Some(q),
        _ => met,
    }
}

// Down the chain of object o from a link to its newest header. A loop of its own, as chains.rt says of all walks.
pub(crate) fn reach_header(
    dump: &[u8],
    g: Geometry,
    pages: u32,
    cells: &[u32],
    o: ObjectId,
    c: ChunkNumber,
    first: u32,
) -> Reached
    ensures { result ≡ reach (record_at g dump.now) g.layout.«data» c.0 0 None 0 (under (record_at g dump.now) pages cells.now o.0 top first) }
{
    let mut link = first;
    let mut bound = TOP;
    let mut end: u64 = 0;
    let mut met = None;
    let mut visits: u32 = 0;
    loop {
        match follow(dump, g, pages, o, bound, link) {
            Step::End => {
                return Err(headless(visits));
            }
            Step::Damaged => {
                return Err(Refusal::IndexDamaged.into());
            }
            Step::Record(q, age, role) => {
                visits += 1;
                let Role::Data(d) = role else {
                    return Ok(Top {
                        page: q,
                        end,
                        met,
                        visits,
                    });
                };
                end = end_of(g.layout.data, d).max(end);
                met = first_met(met, c, q, d);
                bound = age;
                link = link_of(cells, q);
            }
        }
    }
}

// The lowest cut, with this record too, which is the newest header or not: `newest` is where the walk stands, and no choice of a step.
pub fn lower_cut(newest: bool, r: Record, cut: Cut) -> Cut
    ensures { result ≡ pick (is_header r) (lower (cut_of newest r) cut) cut }
{
    let Record::Header(h) = r else {
        return cut;
    };
    lower(cut_of(newest, h), cut)
}

// The lowest cut, with page q too, which is the newest header or not, as the walk knows.
pub fn cut_past(dump: &[u8], g: Geometry, q: PageNumber, newest: bool, cut: Cut) -> Cut
    ensures { result ≡ cut_by (record_at g dump.now) newest q.0 cut }
{
    lower_cut(newest, record_at(dump, g, q), cut)
}

// Whether a page of this data is a copy of chunk c, which begins at base, that the lowest cut of newer headers does not hide.
fn is_shown(d: Data, c: ChunkNumber, base: u64, cut: Cut) -> bool
    ensures { result ≡ is_copy c.0 (Record.Data d) && not (hides cut base) }
{
    d.chunk == c && !hides(cut, base)
}

// Down the chain of object o from a link below an age to the first copy of chunk c that is not hidden. A loop of its own, as chains.rt says.
fn seek_copy(
    dump: &[u8],
    g: Geometry,
    pages: u32,
    cells: &[u32],
    o: ObjectId,
    c: ChunkNumber,
    shown: u32,
    low: Cut,
    above: u32,
    age: u64,
    first: u32,
) -> Looked
    requires { above + records_in (under (record_at g dump.now) pages cells.now o.0 age first) ≤ pages }
    ensures { result ≡ seek (record_at g dump.now) g.layout.«data» c.0 shown low above (under (record_at g dump.now) pages cells.now o.0 age first) }
{
    let base = base_of(g.layout.data, c);
    let mut link = first;
    let mut bound = age;
    let mut cut = low;
    let mut visits = above;
    loop {
        match follow(dump, g, pages, o, bound, link) {
            Step::End => {
                return Ok(Chunk::Hole { shown, visits });
            }
            Step::Damaged => {
                return Err(Refusal::IndexDamaged.into());
            }
            Step::Record(q, older, role) => {
                visits += 1;
                bound = older;
                link = link_of(cells, q);
                let Role::Data(d) = role else {
                    cut = cut_past(dump, g, q, false, cut);
                    continue;
                };
                if is_shown(d, c, base, cut) {
                    let valid = valid_of(d.count, shown, cut, base);
                    return Ok(Chunk::Copy {
                        page: q,
                        valid,
                        shown,
                        visits,
                    });
                }
            }
        }
    }
}

// The copy of chunk c below the newest header h of object o, or a hole.
pub(crate) fn seek_below(
    dump: &[u8],
    g: Geometry,
    pages: u32,
    cells: &[u32],
    o: ObjectId,
    c: ChunkNumber,
    h: PageNumber,
    shown: u32,
    visits: u32,
) -> Looked
    requires { visits + records_in (below (record_at g dump.now) pages cells.now o.0 h.0) ≤ pages }
    ensures { result ≡ seek (record_at g dump.now) g.layout.«data» c.0 shown (cut_by (record_at g dump.now) true h.0 None) visits (below (record_at g dump.now) pages cells.now o.0 h.0) }
{
    let r = record_at(dump, g, h);
    let low = lower_cut(true, r, None);
    let age = order_of(sequence_of(r), h);
    seek_copy(
        dump,
        g,
        pages,
        cells,
        o,
        c,
        shown,
        low,
        visits,
        age,
        link_of(cells, h),
    )
}
