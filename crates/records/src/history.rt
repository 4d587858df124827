// What a file was after each of its records: its size as it grew, was cut and grew again, or why it was no live file.
ghost use Rattle.std.specs.Prelude.{◌≡◌, length, min, ◌<◌};
ghost use Rattle.page.specs.Lengths.{opened_of};
ghost use Rattle.page.specs.Records.{record_at};
ghost use Rattle.chunk.specs.Lookups.{sized_of};
ghost use Rattle.chunk.specs.Newest.{records};
ghost use Rattle.chunk.specs.Takes.{seen_by};
ghost use Rattle.records.specs.Written.{written};
ghost use Rattle.records.specs.Histories.{answer_of, refusal_in};
ghost use Rattle.records.specs.Steps.{after_with};
ghost use Rattle.records.specs.Rows.{history_rows, history_sizes};
ghost use Rattle.records.specs.Answers.{recorded_on, history_left, sizes_left};

use crate::written::{Recorded, count_in, fill_ages};
use chunk::lookup::file_at;
use chunk::moment::Moment;
use chunk::record::end_of;
use chunk::takes::{Takes, seen_at};
use page::geometry::Geometry;
use page::number::{ObjectId, PageNumber};
use page::record::Record;
use page::refusal::Refusal;
use sort::rows::{pack, value_of};

// The size of a file, or why the object was none.
pub(crate) type After = Result<u64, Refusal>;

// With one record more, on page p: a header says anew what the object is, and data can only make a file longer.
#[tactic(auto, using(crate::proofs::Tests::cases), unfolding(crate::specs::Steps::after_with))]
fn with(after: After, data: u32, p: PageNumber, r: Record) -> After
    ensures { result ≡ after_with «data» after p.0 r }
{
    match r {
        Record::Other => after,
        Record::Header(h) => match file_at(r, p, 0) {
            Ok(_) => Ok(h.size as u64),
            Err(refused) => Err(refused.answer),
        },
        Record::Data(d) => Ok(after?.max(end_of(data, d))),
    }
}

// The number of the refusal, as C reads it in a row; 0 where there is a size.
fn refusal_in(after: After) -> u32
    ensures { result ≡ refusal_in after }
{
    match after {
        Ok(_) => 0,
        Err(why) => why.number(),
    }
}

// What the file of object o, if it has records, is after all of them, by their ages.
#[tactic(auto, using(crate::proofs::Following::follow_begin, crate::proofs::Following::follow_turn, crate::proofs::Accepted::opened_few, crate::proofs::Accepted::written_good, crate::proofs::Following::all_followed))]
pub(crate) fn after_all(
    dump: &[u8],
    g: Geometry,
    t: Takes,
    pages: u32,
    o: ObjectId,
    ages: &[u64],
) -> After
    requires dump_value { opened_of g (length dump.now) ≡ Ok pages }
    requires ages_value { ages.now ≡ written (seen_by t (record_at g dump.now)) o.0 pages }
    ensures { 0 < length ages.now → result ≡ answer_of (sized_of (seen_by t (record_at g dump.now)) o.0 pages g.layout.«data») }
{
    let mut after = Err(Refusal::NoHeader);
    for &age in ages {
        let p = PageNumber(value_of(age));
        after = with(after, g.layout.data, p, seen_at(dump, g, t, p));
    }
    after
}

// Fills rows, and sizes beside them, with what the file of object o was after each of its records. C lends the two apart; a size is 0 where there is none.
#[tactic(auto, using(crate::proofs::Histories::rows_length, crate::proofs::Histories::sizes_length, crate::proofs::Histories::next_age, crate::proofs::Histories::row_laid, crate::proofs::Histories::size_laid, crate::proofs::Following::follow_begin, crate::proofs::Following::follow_turn, crate::proofs::Accepted::opened_few, crate::proofs::Accepted::written_good, chunk::proofs::Laying::laid_all))]
fn fill(
    dump: &[u8],
    g: Geometry,
    t: Takes,
    pages: u32,
    o: ObjectId,
    rows: &mut [u64],
    sizes: &mut [u64],
)
    requires dump_value { opened_of g (length dump.now) ≡ Ok pages }
    requires rows_len { length rows.old ≡ records (seen_by t (record_at g dump.now)) o.0 pages }
    requires sizes_len { length sizes.old ≡ records (seen_by t (record_at g dump.now)) o.0 pages }
    ensures rows_after { rows.new ≡ history_rows (seen_by t (record_at g dump.now)) g.layout.«data» o.0 pages }
    ensures sizes_after { sizes.new ≡ history_sizes (seen_by t (record_at g dump.now)) g.layout.«data» o.0 pages }
{
    fill_ages(dump, g, t, pages, o, rows);
    let mut after = Err(Refusal::NoHeader);
    for i in 0..rows.len() {
        let p = PageNumber(value_of(rows[i]));
        after = with(after, g.layout.data, p, seen_at(dump, g, t, p));
        rows[i] = pack(p.0, refusal_in(after));
        sizes[i] = after.unwrap_or(0);
    }
}

// Fills a row for each record of object o of a dump at a moment, the oldest first, if there is room: its page and, as a size lookup answers with only the
// records up to it, the number of the refusal, and the size beside it.
#[tactic(auto, using(crate::proofs::Tests::cases), unfolding(crate::specs::Answers::recorded_on, crate::specs::Answers::history_left, crate::specs::Answers::sizes_left))]
pub fn history(
    dump: &[u8],
    g: Geometry,
    m: Moment,
    o: ObjectId,
    rows: &mut [u64],
    sizes: &mut [u64],
) -> Recorded
    ensures value { result ≡ recorded_on g dump.now m o.0 (min (length rows.old) (length sizes.old)) }
    ensures rows_after { rows.new ≡ history_left g dump.now m o.0 (min (length rows.old) (length sizes.old)) rows.old }
    ensures sizes_after { sizes.new ≡ sizes_left g dump.now m o.0 (min (length rows.old) (length sizes.old)) sizes.old }
{
    let pages = g.opened(dump.len())?;
    let t = m.takes(dump, g);
    let count = count_in(dump, g, pages, m, t, o, rows.len().min(sizes.len()))?;
    let n = count as usize;
    fill(dump, g, t, pages, o, &mut rows[..n], &mut sizes[..n]);
    Ok(count)
}
