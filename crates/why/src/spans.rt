// The spans of a whole file: from 0 to its size, each as long as the reason and its page stay the same.
ghost use Rattle.std.specs.Prelude.{◌≡◌, length, Ok};
ghost use Rattle.page.specs.Lengths.{opened_of};
ghost use Rattle.page.specs.Records.{record_at};
ghost use Rattle.chunk.specs.Takes.{seen_by};
ghost use Rattle.chunk.specs.Sizes.{size_of};
ghost use Rattle.why.specs.Marks.{marks_to};
ghost use Rattle.why.specs.Reasons.{spans_of};
ghost use Rattle.why.specs.Sweeps.{filled};
ghost use Rattle.why.specs.Answers.{filed_in, filed_on, spans_on, spans_left};

use crate::answer::Spans;
use crate::marks::{Measured, fill_marks, measure};
use crate::sweep::sweep;
use chunk::lookup::file_at;
use chunk::moment::Moment;
use chunk::record::Want;
use chunk::scan::{Aged, newest_page, records_since};
use chunk::takes::{Takes, seen_at};
use page::geometry::Geometry;
use page::number::{ObjectId, PageNumber};
use page::refusal::{Refusal, Short};
use sort::keys::sort;

// The newest header of the file that object o of a dump of so many pages is at a moment, which reads these records. Nothing is visited, so one pass is
// enough.
#[tactic(auto, using(crate::proofs::Tests::cases), unfolding(crate::specs::Answers::filed_in))]
fn file_in(
    dump: &[u8],
    g: Geometry,
    pages: u32,
    m: Moment,
    t: Takes,
    o: ObjectId,
) -> Result<PageNumber, Refusal>
    ensures { result ≡ filed_in (seen_by t (record_at g dump.now)) pages m o.0 }
{
    if m.is_missing(pages) {
        return Err(Refusal::BadPage);
    }
    if o.is_bad() {
        return Err(Refusal::BadObject);
    }
    match newest_page(dump, g, t, pages, o, Want::Header) {
        None if records_since(dump, g, t, pages, o, 0) == 0 => Err(Refusal::NoObject),
        None => Err(Refusal::NoHeader),
        Some(Aged { page, .. }) => match file_at(seen_at(dump, g, t, page), page, 0) {
            Err(e) => Err(e.answer),
            Ok(file) => Ok(file.answer),
        },
    }
}

// A live file of a dump: how many pages that has, which records are read, the file's newest header, its size, and how many marks it has.
#[derive(Clone, Copy)]
pub(crate) struct Filed {
    pub pages: u32,
    pub takes: Takes,
    pub header: PageNumber,
    pub size: u64,
    pub marks: u32,
}

// The file that object o of a dump is at a moment, if there are as many words as it has marks.
#[tactic(auto, using(crate::proofs::Tests::cases), unfolding(crate::specs::Answers::filed_on))]
pub(crate) fn live_file(
    dump: &[u8],
    g: Geometry,
    m: Moment,
    o: ObjectId,
    words: usize,
) -> Result<Filed, Short<u32>>
    ensures { result ≡ filed_on g dump.now m o.0 words }
{
    let pages = g.opened(dump.len())?;
    let takes = m.takes(dump, g);
    let header = file_in(dump, g, pages, m, takes, o)?;
    let Measured { marks, size } = measure(dump, g, takes, pages, o, header);
    if words < (marks as usize) {
        return Err(Short {
            refusal: Refusal::ShortBuffer,
            need: marks,
        });
    }
    Ok(Filed {
        pages,
        takes,
        header,
        size,
        marks,
    })
}

// Fills rows, one for each mark of the file of object o, of this size, whose newest header is page h, with its spans. Answers how many they are.
pub(crate) fn fill(
    dump: &[u8],
    g: Geometry,
    t: Takes,
    pages: u32,
    o: ObjectId,
    h: PageNumber,
    size: u64,
    rows: &mut [u64],
) -> usize
    requires dump_value { opened_of g (length dump.now) ≡ Ok pages }
    requires size_value { size ≡ size_of (seen_by t (record_at g dump.now)) g.layout.«data» o.0 h.0 pages }
    requires rows_len { length rows.old ≡ length (marks_to (seen_by t (record_at g dump.now)) g.layout.«data» o.0 h.0 pages) }
    ensures value { result ≡ length (spans_of (seen_by t (record_at g dump.now)) g.layout.«data» o.0 pages h.0) }
    ensures rows_after { rows.new ≡ filled (spans_of (seen_by t (record_at g dump.now)) g.layout.«data» o.0 pages h.0) (length rows.old) }
{
    fill_marks(dump, g, t, pages, o, h, rows);
    let count = rows.len();
    sort(rows, count);
    sweep(dump, g, t, size, rows)
}

// Fills rows with the spans of object o of a dump at a moment, if there is room for its marks: ascending, each with where it begins and why.
pub fn spans(
    dump: &[u8],
    g: Geometry,
    m: Moment,
    o: ObjectId,
    rows: &mut [u64],
) -> Result<Spans, Short<u32>>
    ensures value { result ≡ spans_on g dump.now m o.0 (length rows.old) }
    ensures rows_after { rows.new ≡ spans_left g dump.now m o.0 rows.old }
{
    let f = live_file(dump, g, m, o, rows.len())?;
    let room = &mut rows[..f.marks as usize];
    let count = fill(dump, g, f.takes, f.pages, o, f.header, f.size, room);
    Ok(Spans {
        size: f.size,
        rows: count as u32,
    })
}
