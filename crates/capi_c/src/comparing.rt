// Two dumps compared.
ghost use Rattle.std.specs.Prelude.{◌≡◌, length};
ghost use Rattle.compare.specs.Answers.{compared_on, bytes_left};
ghost use Rattle.compare.specs.Lists.{next_in, sides_report, lists_report};
ghost use Rattle.compare.specs.Prepared.{prepared_on, order_left, copies_left, work_left};
ghost use Rattle.capi.specs.Comparing.{prepared_answer, next_answer};
ghost use Rattle.capi.specs.Trees.{texted_answer};
ghost use Rattle.capi.specs.Layouts.{geometry_at};

use capi::comparing::{NextAnswer, PreparedAnswer};
use capi::layout::Geometry;
use capi::trees::TextAnswer;

// Prepares a dump for comparing: `order` and `copies` need a word for each of its records, `work` two. Then `order` has the records in front, a word each
// (the object and the page), ascending by object and the newest first in each; `copies`, at the same places, the copies that each object's file shows;
// and the words of `work` that were needed are cleared. Words behind stay, and a refusal writes nothing.
#[unsafe(no_mangle)]
pub extern "C" fn lohenarr_compare_prepare(
    dump: &[u8],
    geometry: Geometry,
    order: &mut [u64],
    copies: &mut [u64],
    work: &mut [u64],
) -> PreparedAnswer
    ensures value { result ≡ prepared_answer (prepared_on (geometry_at geometry) dump.now (length order.old) (length copies.old) (length work.old)) }
    ensures order_after { order.new ≡ order_left (geometry_at geometry) dump.now order.old (length copies.old) (length work.old) }
    ensures copies_after { copies.new ≡ copies_left (geometry_at geometry) dump.now copies.old (length order.old) (length work.old) }
    ensures work_after { work.new ≡ work_left (geometry_at geometry) dump.now work.old (length order.old) (length copies.old) }
{
    capi::comparing::lohenarr_compare_prepare(dump, geometry, order, copies, work)
}

// The object that comes next in the words of two dumps, and how many words at the front of each list are of it.
#[unsafe(no_mangle)]
pub extern "C" fn lohenarr_compare_next(order1: &[u64], order2: &[u64]) -> NextAnswer
    ensures { result ≡ next_answer (next_in order1.now order2.now) }
{
    capi::comparing::lohenarr_compare_next(order1, order2)
}

// Writes the report of one object, by its words on each side: no bytes where nothing differs. Bytes past the report stay, and a refusal writes nothing.
#[unsafe(no_mangle)]
pub extern "C" fn lohenarr_compare_object(
    dump1: &[u8],
    geometry1: Geometry,
    order1: &[u64],
    copies1: &[u64],
    dump2: &[u8],
    geometry2: Geometry,
    order2: &[u64],
    copies2: &[u64],
    object: u32,
    buf: &mut [u8],
) -> TextAnswer
    ensures value { result ≡ texted_answer (compared_on (geometry_at geometry1) (length dump1.now) (geometry_at geometry2) (length dump2.now) (sides_report (geometry_at geometry1) dump1.now (geometry_at geometry2) dump2.now object order1.now copies1.now order2.now copies2.now) (length buf.old)) }
    ensures buf_after { buf.new ≡ bytes_left (geometry_at geometry1) (length dump1.now) (geometry_at geometry2) (length dump2.now) (sides_report (geometry_at geometry1) dump1.now (geometry_at geometry2) dump2.now object order1.now copies1.now order2.now copies2.now) buf.old }
{
    capi::comparing::lohenarr_compare_object(
        dump1, geometry1, order1, copies1, dump2, geometry2, order2, copies2, object, buf,
    )
}

// Writes the whole report of two prepared dumps, object after object. Bytes past the report stay, and a refusal writes nothing.
#[unsafe(no_mangle)]
pub extern "C" fn lohenarr_compare(
    dump1: &[u8],
    geometry1: Geometry,
    order1: &[u64],
    copies1: &[u64],
    dump2: &[u8],
    geometry2: Geometry,
    order2: &[u64],
    copies2: &[u64],
    buf: &mut [u8],
) -> TextAnswer
    ensures value { result ≡ texted_answer (compared_on (geometry_at geometry1) (length dump1.now) (geometry_at geometry2) (length dump2.now) (lists_report (geometry_at geometry1) dump1.now (geometry_at geometry2) dump2.now order1.now copies1.now order2.now copies2.now) (length buf.old)) }
    ensures buf_after { buf.new ≡ bytes_left (geometry_at geometry1) (length dump1.now) (geometry_at geometry2) (length dump2.now) (lists_report (geometry_at geometry1) dump1.now (geometry_at geometry2) dump2.now order1.now copies1.now order2.now copies2.now) buf.old }
{
    capi::comparing::lohenarr_compare(
        dump1, geometry1, order1, copies1, dump2, geometry2, order2, copies2, buf,
    )
}
