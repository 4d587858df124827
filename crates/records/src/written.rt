// The records of an object in the order in which they were written, by their ages.
ghost use Rattle.std.specs.Prelude.{◌≡◌, ◌≤◌, length, IfOk};
ghost use Rattle.page.specs.Records.{record_at};
ghost use Rattle.chunk.specs.Newest.{records};
ghost use Rattle.chunk.specs.Takes.{seen_by};
ghost use Rattle.records.specs.Written.{written};
ghost use Rattle.records.specs.Answers.{recorded_in};

use chunk::moment::Moment;
use chunk::record::{is_of, order_of, sequence_of};
use chunk::scan::records_since;
use chunk::takes::{Takes, seen_at};
use page::geometry::Geometry;
use page::number::{ObjectId, PageNumber};
use page::refusal::{Refusal, Short};
use page::tags::names_object;
use sort::keys::sort;

// How many records an object has; or a refusal, with that number beside ShortBuffer.
pub type Recorded = Result<u32, Short<u32>>;

// How many records object o of a dump of so many pages has at a moment, which reads these records, if there is room for them.
#[tactic(auto, using(crate::proofs::Tests::cases), unfolding(crate::specs::Answers::recorded_in))]
pub(crate) fn count_in(
    dump: &[u8],
    g: Geometry,
    pages: u32,
    m: Moment,
    t: Takes,
    o: ObjectId,
    room: usize,
) -> Recorded
    ensures value { result ≡ recorded_in (seen_by t (record_at g dump.now)) pages m o.0 room }
    ensures all { IfOk result (λ count. count ≡ records (seen_by t (record_at g dump.now)) o.0 pages) }
    ensures fits { IfOk result (λ count. count ≤ room) }
{
    if m.is_missing(pages) {
        return Err(Refusal::BadPage.into());
    }
    if o.is_bad() {
        return Err(Refusal::BadObject.into());
    }
    let need = records_since(dump, g, t, pages, o, 0);
    if need == 0 {
        return Err(Refusal::NoObject.into());
    }
    if room < (need as usize) {
        return Err(Short {
            refusal: Refusal::ShortBuffer,
            need,
        });
    }
    Ok(need)
}

// Fills words with the ages of the records of object o, the oldest first. A pass as those of chunk's scans; with a closure in place of its body it would
// be no plainer, since a contract would have to say what its invariant says.
#[tactic(auto, using(chunk::proofs::Sorting::listed_all, crate::proofs::Writing::records_count), unfolding(crate::specs::Written::written))]
pub(crate) fn fill_ages(
    dump: &[u8],
    g: Geometry,
    t: Takes,
    pages: u32,
    o: ObjectId,
    words: &mut [u64],
)
    requires { length words.old ≡ records (seen_by t (record_at g dump.now)) o.0 pages }
    ensures { words.new ≡ written (seen_by t (record_at g dump.now)) o.0 pages }
{
    let mut at: usize = 0;
    for i in 0..pages {
        let p = PageNumber(i);
        if !names_object(dump, g, p, o) {
            continue;
        }
        let r = seen_at(dump, g, t, p);
        if !is_of(r, o) {
            continue;
        }
        words[at] = order_of(sequence_of(r), p);
        at += 1;
    }
    sort(words, at);
}
