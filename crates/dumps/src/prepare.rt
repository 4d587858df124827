// An open dump prepared for comparing.
ghost use Rattle.std.specs.Prelude.{◌≡◌, length};
ghost use Rattle.compare.specs.Prepared.{prepared_on, order_left, copies_left, work_left};

use crate::open::{OpenDump, open};
use compare::prepare::Prepared;
use page::geometry::Geometry;

// Prepares an open dump, if each slice has room: `order` and `copies` a word for each record, `work` two, which are cleared.
pub fn prepare<'a, 'b, 'c, 'd>(
    d: OpenDump<'a>,
    order: &'b mut [u64],
    copies: &'c mut [u64],
    work: &'d mut [u64],
) -> Prepared
    ensures value { result ≡ prepared_on d.entry.geometry d.entry.bytes.now
        (length order.old) (length copies.old) (length work.old) }
    ensures order_after { order.new ≡ order_left d.entry.geometry d.entry.bytes.now
        order.old (length copies.old) (length work.old) }
    ensures copies_after { copies.new ≡ copies_left d.entry.geometry d.entry.bytes.now
        copies.old (length order.old) (length work.old) }
    ensures work_after { work.new ≡ work_left d.entry.geometry d.entry.bytes.now
        work.old (length order.old) (length copies.old) }
{
    compare::prepare::prepare(d.bytes, d.geometry, order, copies, work)
}

// Prepares a dump, opened for it, if each slice has room: a call of C brings bytes and geometry apart (include/lohenarr.h), and document 02 names the
// form above.
pub fn prepare_dump(
    bytes: &[u8],
    geometry: Geometry,
    order: &mut [u64],
    copies: &mut [u64],
    work: &mut [u64],
) -> Prepared
    ensures value { result ≡ prepared_on geometry bytes.now
        (length order.old) (length copies.old) (length work.old) }
    ensures order_after { order.new ≡ order_left geometry bytes.now
        order.old (length copies.old) (length work.old) }
    ensures copies_after { copies.new ≡ copies_left geometry bytes.now
        copies.old (length order.old) (length work.old) }
    ensures work_after { work.new ≡ work_left geometry bytes.now
        work.old (length order.old) (length copies.old) }
{
    prepare(open(bytes, geometry), order, copies, work)
}
