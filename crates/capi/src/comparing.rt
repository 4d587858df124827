// Two dumps compared: each is prepared in lent words, and then what differs is told, object by object or whole.
ghost use Rattle.std.specs.Prelude.{◌≡◌, length};
ghost use Rattle.compare.specs.Answers.{compared_on, bytes_left};
ghost use Rattle.compare.specs.Lists.{next_in, sides_report, lists_report};
ghost use Rattle.compare.specs.Prepared.{prepared_on, order_left, copies_left, work_left};
ghost use Rattle.capi.specs.Comparing.{prepared_answer, next_answer};
ghost use Rattle.capi.specs.Layouts.{geometry_at};
ghost use Rattle.capi.specs.Trees.{texted_answer};

use crate::layout::{Geometry, geometry_at};
use crate::trees::TextAnswer;
use compare::answer::Which;
use compare::prepare::Prepared;
use compare::whole::next;
use dumps::both::compare_dumps;
use dumps::prepare::prepare_dump;
use page::number::ObjectId;

// How many records the dump has. Beside ShortBuffer `need` is that number, and 0 else.
#[repr(C)]
#[derive(Clone, Copy, Default)]
pub struct PreparedAnswer {
    pub refusal: u32,
    pub need: u32,
    pub records: u32,
}

// The object that comes next, 0 where there are no words, and how many words at the front of each list are of it.
#[repr(C)]
#[derive(Clone, Copy, Default)]
pub struct NextAnswer {
    pub object: u32,
    pub first: u64,
    pub second: u64,
}

impl From<Prepared> for PreparedAnswer {
    ghost from_gives = { λ a r. r ≡ prepared_answer a };

    fn from(answer: Prepared) -> PreparedAnswer
        ensures { result ≡ prepared_answer answer }
    {
        match answer {
            Err(e) => PreparedAnswer {
                refusal: e.refusal.number(),
                need: e.need,
                ..PreparedAnswer::default()
            },
            Ok(records) => PreparedAnswer {
                records,
                ..PreparedAnswer::default()
            },
        }
    }
}

// Prepares a dump for comparing: `order` and `copies` need a word for each of its records, `work` two. Then `order` has the records in front, a word each
// (the object and the page), ascending by object and the newest first in each; `copies`, at the same places, the copies that each object's file shows;
// and the words of `work` that were needed are cleared. Words behind stay, and a refusal writes nothing.
pub fn lohenarr_compare_prepare(
    dump: &[u8],
    geometry: Geometry,
    order: &mut [u64],
    copies: &mut [u64],
    work: &mut [u64],
) -> PreparedAnswer
    ensures value { result ≡ prepared_answer (prepared_on (geometry_at geometry) dump.now (length order.old) (length copies.old) (length work.old)) }
    ensures order_after { order.new ≡ order_left (geometry_at geometry) dump.now order.old (length copies.old) (length work.old) }
    ensures copies_after { copies.new ≡ copies_left (geometry_at geometry) dump.now copies.old (length order.old) (length work.old) }
    ensures work_after { work.new ≡ work_left (geometry_at geometry) dump.now work.old (length order.old) (length copies.old) }
{
    prepare_dump(dump, geometry_at(geometry), order, copies, work).into()
}

// The object that comes next in the words of two dumps, and how many words at the front of each list are of it.
pub fn lohenarr_compare_next(order1: &[u64], order2: &[u64]) -> NextAnswer
    ensures { result ≡ next_answer (next_in order1.now order2.now) }
{
    let t = next(order1, order2);
    NextAnswer {
        object: t.object,
        first: t.first as u64,
        second: t.second as u64,
    }
}

// Writes the report of one object, by its words on each side: no bytes where nothing differs. Bytes past the report stay, and a refusal writes nothing.
pub fn lohenarr_compare_object(
    dump1: &[u8],
    geometry1: Geometry,
    order1: &[u64],
    copies1: &[u64],
    dump2: &[u8],
    geometry2: Geometry,
    order2: &[u64],
    copies2: &[u64],
    object: u32,
    buf: &mut [u8],
) -> TextAnswer
    ensures value { result ≡ texted_answer (compared_on (geometry_at geometry1) (length dump1.now) (geometry_at geometry2) (length dump2.now) (sides_report (geometry_at geometry1) dump1.now (geometry_at geometry2) dump2.now object order1.now copies1.now order2.now copies2.now) (length buf.old)) }
    ensures buf_after { buf.new ≡ bytes_left (geometry_at geometry1) (length dump1.now) (geometry_at geometry2) (length dump2.now) (sides_report (geometry_at geometry1) dump1.now (geometry_at geometry2) dump2.now object order1.now copies1.now order2.now copies2.now) buf.old }
{
    compare_dumps(
        Which::One(ObjectId(object)),
        dump1,
        geometry_at(geometry1),
        order1,
        copies1,
        dump2,
        geometry_at(geometry2),
        order2,
        copies2,
        buf,
    )
    .into()
}

// Writes the whole report of two prepared dumps, object after object. Bytes past the report stay, and a refusal writes nothing.
pub fn lohenarr_compare(
    dump1: &[u8],
    geometry1: Geometry,
    order1: &[u64],
    copies1: &[u64],
    dump2: &[u8],
    geometry2: Geometry,
    order2: &[u64],
    copies2: &[u64],
    buf: &mut [u8],
) -> TextAnswer
    ensures value { result ≡ texted_answer (compared_on (geometry_at geometry1) (length dump1.now) (geometry_at geometry2) (length dump2.now) (lists_report (geometry_at geometry1) dump1.now (geometry_at geometry2) dump2.now order1.now copies1.now order2.now copies2.now) (length buf.old)) }
    ensures buf_after { buf.new ≡ bytes_left (geometry_at geometry1) (length dump1.now) (geometry_at geometry2) (length dump2.now) (lists_report (geometry_at geometry1) dump1.now (geometry_at geometry2) dump2.now order1.now copies1.now order2.now copies2.now) buf.old }
{
    compare_dumps(
        Which::All,
        dump1,
        geometry_at(geometry1),
        order1,
        copies1,
        dump2,
        geometry_at(geometry2),
        order2,
        copies2,
        buf,
    )
    .into()
}
