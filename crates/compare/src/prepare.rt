// A dump prepared for comparing: a word for each record, in order, and as many for the rows of the copies that the files show. The slices are apart, as
// callers of C lend them (include/lohenarr.h).
ghost use Rattle.std.specs.Prelude.{◌≡◌, length, replicate};
ghost use Rattle.page.specs.Lengths.{opened_of};
ghost use Rattle.page.specs.Records.{record_at};
ghost use Rattle.compare.specs.Prepared as prepared;
ghost use Rattle.compare.specs.Prepared.{record_count, work_for, is_room, prepared_on, order_left, copies_left, work_left};

use crate::order::{count_records, fill_order};
use crate::rows::fill_copies;
use page::geometry::Geometry;
use page::refusal::{Refusal, Short};

// How many records a dump has; or a refusal, with that number beside ShortBuffer.
pub type Prepared = Result<u32, Short<u32>>;

// How many words are worked in for so many records: as many as `file`'s walk along them asks for, which keeps its own number to itself.
fn work_for(records: u32) -> usize
    ensures { result ≡ work_for records }
{
    2 * (records as usize)
}

// Whether so many words of each slice are enough for so many records.
#[tactic(auto, using(crate::proofs::Tests::cases))]
fn is_room(records: u32, order: usize, copies: usize, work: usize) -> bool
    ensures { result ≡ is_room records order copies work }
{
    let n = records as usize;
    n <= order && n <= copies && work_for(records) <= work
}

// Fills slices that have just the words which a dump of so many pages needs. The last is worked in and cleared.
#[tactic(auto, using(crate::proofs::Tests::cases))]
fn fill(
    dump: &[u8],
    g: Geometry,
    pages: u32,
    order: &mut [u64],
    copies: &mut [u64],
    work: &mut [u64],
)
    requires dump_value { opened_of g (length dump.now) ≡ Ok pages }
    requires order_len { length order.old ≡ record_count (record_at g dump.now) pages }
    requires copies_len { length copies.old ≡ record_count (record_at g dump.now) pages }
    requires work_len { length work.old ≡ work_for (record_count (record_at g dump.now) pages) }
    ensures order_after { order.new ≡ prepared.order (record_at g dump.now) pages }
    ensures copies_after { copies.new ≡ prepared.copies (record_at g dump.now) pages g.layout.«data» }
    ensures work_after { work.new ≡ replicate (length work.old) 0 }
{
    let records = order.len();
    fill_order(dump, g, pages, order, &mut work[..records]);
    fill_copies(dump, g, pages, order, copies, work);
    work.fill(0);
}

// Prepares a dump of so many pages, where the slices have room.
#[tactic(auto, using(crate::proofs::Tests::cases, crate::proofs::Preparing::room_has))]
fn prepare_in(
    dump: &[u8],
    g: Geometry,
    pages: u32,
    order: &mut [u64],
    copies: &mut [u64],
    work: &mut [u64],
) -> Prepared
    requires { opened_of g (length dump.now) ≡ Ok pages }
    ensures value { result ≡ prepared_on g dump.now
        (length order.old) (length copies.old) (length work.old) }
    ensures order_after { order.new ≡ order_left g dump.now
        order.old (length copies.old) (length work.old) }
    ensures copies_after { copies.new ≡ copies_left g dump.now
        copies.old (length order.old) (length work.old) }
    ensures work_after { work.new ≡ work_left g dump.now
        work.old (length order.old) (length copies.old) }
{
    let records = count_records(dump, g, pages);
    if !is_room(records, order.len(), copies.len(), work.len()) {
        return Err(Short {
            refusal: Refusal::ShortBuffer,
            need: records,
        });
    }
    let n = records as usize;
    let room = work_for(records);
    fill(
        dump,
        g,
        pages,
        &mut order[..n],
        &mut copies[..n],
        &mut work[..room],
    );
    Ok(records)
}

// Prepares a dump, if each slice has room: `order` and `copies` a word for each record, `work` two, which are cleared.
#[tactic(auto, using(crate::proofs::Tests::cases), unfolding(crate::specs::Prepared::prepared_on, crate::specs::Prepared::order_left, crate::specs::Prepared::copies_left, crate::specs::Prepared::work_left))]
pub fn prepare(
    dump: &[u8],
    g: Geometry,
    order: &mut [u64],
    copies: &mut [u64],
    work: &mut [u64],
) -> Prepared
    ensures value { result ≡ prepared_on g dump.now
        (length order.old) (length copies.old) (length work.old) }
    ensures order_after { order.new ≡ order_left g dump.now
        order.old (length copies.old) (length work.old) }
    ensures copies_after { copies.new ≡ copies_left g dump.now
        copies.old (length order.old) (length work.old) }
    ensures work_after { work.new ≡ work_left g dump.now
        work.old (length order.old) (length copies.old) }
{
    let pages = g.opened(dump.len())?;
    prepare_in(dump, g, pages, order, copies, work)
}
