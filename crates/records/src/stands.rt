// How each record of an object stands.
ghost use Rattle.std.specs.Prelude.{◌≡◌, min, ◌<◌, length, drop, replicate};
ghost use Rattle.page.specs.Lengths.{opened_of};
ghost use Rattle.page.specs.Records.{record_at};
ghost use Rattle.page.specs.declared.record.Record.TheVariants as said;
ghost use Rattle.chunk.specs.Lookups.{sized_of};
ghost use Rattle.chunk.specs.Newest.{records, newest_header, newest_copy};
ghost use Rattle.chunk.specs.Takes.{seen_by};
ghost use Rattle.records.specs.Written.{written, page_at};
ghost use Rattle.records.specs.Histories.{answer_of};
ghost use Rattle.records.specs.Lows.{lows_of};
ghost use Rattle.records.specs.Held.{held_in};
ghost use Rattle.records.specs.Copies.{places_of};
ghost use Rattle.records.specs.Standings.{cut_by, copy_stands, stands_of};
ghost use Rattle.records.specs.Rows.{standing_rows, standing_details};
ghost use Rattle.records.specs.Answers.{recorded_on, standing_left, details_left, work_left};

use crate::copies::{chunk_of, fill_places, last_place};
use crate::cuts::fill_lows;
use crate::history::{After, after_all};
use crate::standing::Standing;
use crate::written::{Recorded, count_in, fill_ages};
use chunk::lookup::{shown_of, valid_of};
use chunk::moment::Moment;
use chunk::record::base_of;
use chunk::takes::{Takes, seen_at};
use page::geometry::Geometry;
use page::number::{ObjectId, PageNumber};
use page::record::{Data, Record};
use sort::rows::{pack, value_of};
use sort::search::first_from;

// The newest copy of a chunk, which no later header hides, where this word is the lowest later cut: it holds bytes of the file, if the object is one.
#[tactic(auto, using(crate::proofs::Tests::cases), unfolding(crate::specs::Held::held_in))]
fn held(g: Geometry, after: After, low: u64, d: Data) -> Standing
    ensures { result ≡ held_in g.layout.«data» after low d }
{
    let base = base_of(g.layout.data, d.chunk);
    match after {
        Ok(size) if base < size => {
            let shown = shown_of(g.layout.data, size, base);
            Standing::Holds(d.chunk, valid_of(d.count, shown, Some(low), base))
        }
        _ => Standing::NoFile,
    }
}

// How the newest copy of a chunk stands, whose place is i: the first of these ages is its own, and the words beside them are the lowest cuts from each on.
#[tactic(auto, using(crate::proofs::InSight::first_there))]
fn copy_standing(
    dump: &[u8],
    g: Geometry,
    t: Takes,
    pages: u32,
    o: ObjectId,
    after: After,
    ages: &[u64],
    lows: &[u64],
    i: usize,
    d: Data,
) -> Standing
    requires dump_value { opened_of g (length dump.now) ≡ Ok pages }
    requires i_in_bounds { i < length (written (seen_by t (record_at g dump.now)) o.0 pages) }
    requires ages_value { ages.now ≡ drop i (written (seen_by t (record_at g dump.now)) o.0 pages) }
    requires lows_value { lows.now ≡ drop i (lows_of (seen_by t (record_at g dump.now)) (written (seen_by t (record_at g dump.now)) o.0 pages)) }
    requires after_value { after ≡ answer_of (sized_of (seen_by t (record_at g dump.now)) o.0 pages g.layout.«data») }
    requires i_value { seen_by t (record_at g dump.now) (page_at (seen_by t (record_at g dump.now)) o.0 pages i) ≡ said.Data d }
    requires pages_value { newest_copy (seen_by t (record_at g dump.now)) o.0 d.chunk.0 pages ≡ Some (page_at (seen_by t (record_at g dump.now)) o.0 pages i) }
    ensures { result ≡ copy_stands (seen_by t (record_at g dump.now)) g.layout.«data» o.0 pages d.chunk.0
        (cut_by (seen_by t (record_at g dump.now)) g.layout.«data» o.0 pages
        (page_at (seen_by t (record_at g dump.now)) o.0 pages i) d.chunk.0
        (newest_header (seen_by t (record_at g dump.now)) o.0 pages)) }
{
    let base = base_of(g.layout.data, d.chunk);
    if base < lows[0] {
        return held(g, after, lows[0], d);
    }
    let k = first_from(lows, base + 1);
    Standing::Cut(PageNumber(value_of(ages[k - 1])))
}

// How the record stands whose place is i: the first of these ages is its own, and behind it are those of the newer records; the words beside them are
// the lowest cuts from each on, and the rows the places of all records by their chunks.
fn standing_at(
    dump: &[u8],
    g: Geometry,
    t: Takes,
    pages: u32,
    o: ObjectId,
    after: After,
    ages: &[u64],
    lows: &[u64],
    places: &[u64],
    i: usize,
) -> Standing
    requires dump_value { opened_of g (length dump.now) ≡ Ok pages }
    requires i_in_bounds { i < length (written (seen_by t (record_at g dump.now)) o.0 pages) }
    requires ages_value { ages.now ≡ drop i (written (seen_by t (record_at g dump.now)) o.0 pages) }
    requires lows_value { lows.now ≡ drop i (lows_of (seen_by t (record_at g dump.now)) (written (seen_by t (record_at g dump.now)) o.0 pages)) }
    requires places_value { places.now ≡ places_of (seen_by t (record_at g dump.now)) (written (seen_by t (record_at g dump.now)) o.0 pages) }
    requires after_value { after ≡ answer_of (sized_of (seen_by t (record_at g dump.now)) o.0 pages g.layout.«data») }
    ensures { result ≡ stands_of (seen_by t (record_at g dump.now)) g.layout.«data» o.0 pages
        (page_at (seen_by t (record_at g dump.now)) o.0 pages i) }
{
    let r = seen_at(dump, g, t, PageNumber(value_of(ages[0])));
    let q = last_place(places, chunk_of(r));
    match r {
        Record::Other => Standing::NoFile,
        Record::Header(_) if q == i => Standing::NewestHeader,
        Record::Header(_) => Standing::OlderHeader,
        Record::Data(d) if q == i => {
            copy_standing(dump, g, t, pages, o, after, ages, lows, i, d)
        }
        Record::Data(_) => Standing::Superseded(PageNumber(value_of(ages[q - i]))),
    }
}

// Puts how each record stands in place of its age and, as its second word, of its lowest cut, by the places of all records.
#[tactic(auto, using(crate::proofs::Rowing::part_rest, crate::proofs::Rowing::rows_length, crate::proofs::Rowing::details_length, chunk::proofs::Laying::laid_all, crate::proofs::Last::written_few, crate::proofs::Lowering::lows_length, page::proofs::Lengths::opened_pages))]
fn put_standings(
    dump: &[u8],
    g: Geometry,
    t: Takes,
    pages: u32,
    o: ObjectId,
    after: After,
    places: &[u64],
    rows: &mut [u64],
    details: &mut [u64],
)
    requires dump_value { opened_of g (length dump.now) ≡ Ok pages }
    requires after_value { 0 < length rows.old → after ≡ answer_of (sized_of (seen_by t (record_at g dump.now)) o.0 pages g.layout.«data») }
    requires places_value { places.now ≡ places_of (seen_by t (record_at g dump.now)) (written (seen_by t (record_at g dump.now)) o.0 pages) }
    requires rows_value { rows.old ≡ written (seen_by t (record_at g dump.now)) o.0 pages }
    requires details_value { details.old ≡ lows_of (seen_by t (record_at g dump.now)) (written (seen_by t (record_at g dump.now)) o.0 pages) }
    ensures rows_after { rows.new ≡ standing_rows (seen_by t (record_at g dump.now)) g.layout.«data» o.0 pages }
    ensures details_after { details.new ≡ standing_details (seen_by t (record_at g dump.now)) g.layout.«data» o.0 pages }
{
    for i in 0..rows.len() {
        let s = standing_at(
            dump,
            g,
            t,
            pages,
            o,
            after,
            &rows[i..],
            &details[i..],
            places,
            i,
        );
        rows[i] = pack(value_of(rows[i]), s.kind());
        details[i] = s.detail();
    }
}

// Fills rows, and second words beside them, with how the records of object o stand. The last words are worked in and cleared. C lends the three apart.
#[tactic(auto, using(crate::proofs::Last::written_few, crate::proofs::Writing::written_length, page::proofs::Lengths::opened_pages))]
fn fill(
    dump: &[u8],
    g: Geometry,
    t: Takes,
    pages: u32,
    o: ObjectId,
    rows: &mut [u64],
    details: &mut [u64],
    work: &mut [u64],
)
    requires dump_value { opened_of g (length dump.now) ≡ Ok pages }
    requires rows_len { length rows.old ≡ records (seen_by t (record_at g dump.now)) o.0 pages }
    requires details_len { length details.old ≡ records (seen_by t (record_at g dump.now)) o.0 pages }
    requires work_len { length work.old ≡ records (seen_by t (record_at g dump.now)) o.0 pages }
    ensures rows_after { rows.new ≡ standing_rows (seen_by t (record_at g dump.now)) g.layout.«data» o.0 pages }
    ensures details_after { details.new ≡ standing_details (seen_by t (record_at g dump.now)) g.layout.«data» o.0 pages }
    ensures work_after { work.new ≡ replicate (length work.old) 0 }
{
    fill_ages(dump, g, t, pages, o, rows);
    fill_lows(dump, g, t, rows, details);
    fill_places(dump, g, t, rows, work);
    let after = after_all(dump, g, t, pages, o, rows);
    put_standings(dump, g, t, pages, o, after, work, rows, details);
    work.fill(0);
}

// Fills a row for each record of object o of a dump at a moment, the oldest first, if there is room: its page and the number of how it stands, and beside
// it what goes with that. As many words of `work` are worked in and cleared.
#[tactic(auto, using(crate::proofs::Tests::cases), unfolding(crate::specs::Answers::recorded_on, crate::specs::Answers::standing_left, crate::specs::Answers::details_left, crate::specs::Answers::work_left))]
pub fn stands(
    dump: &[u8],
    g: Geometry,
    m: Moment,
    o: ObjectId,
    rows: &mut [u64],
    details: &mut [u64],
    work: &mut [u64],
) -> Recorded
    ensures value { result ≡ recorded_on g dump.now m o.0
        (min (length rows.old) (min (length details.old) (length work.old))) }
    ensures rows_after { rows.new ≡ standing_left g dump.now m o.0
        (min (length rows.old) (min (length details.old) (length work.old))) rows.old }
    ensures details_after { details.new ≡ details_left g dump.now m o.0
        (min (length rows.old) (min (length details.old) (length work.old))) details.old }
    ensures work_after { work.new ≡ work_left g dump.now m o.0
        (min (length rows.old) (min (length details.old) (length work.old))) work.old }
{
    let pages = g.opened(dump.len())?;
    let t = m.takes(dump, g);
    let room = rows.len().min(details.len()).min(work.len());
    let count = count_in(dump, g, pages, m, t, o, room)?;
    let n = count as usize;
    fill(
        dump,
        g,
        t,
        pages,
        o,
        &mut rows[..n],
        &mut details[..n],
        &mut work[..n],
    );
    Ok(count)
}
