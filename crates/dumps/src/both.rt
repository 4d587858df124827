// Two open dumps compared, by the words that each was prepared to.
ghost use Rattle.std.specs.Prelude.{◌≡◌, length};
ghost use Rattle.compare.specs.Answers.{compared_on, bytes_left};
ghost use Rattle.compare.specs.Lists.{asked_report};

use crate::open::{OpenDump, open};
use compare::answer::{Compared, Which};
use page::geometry::Geometry;

// Writes the report of two open dumps that is asked for, if it fits.
pub fn report<'a, 'b, 'c, 'd, 'e, 'f, 'g>(
    w: Which,
    a: OpenDump<'a>,
    order: &'b [u64],
    rows: &'c [u64],
    b: OpenDump<'d>,
    order2: &'e [u64],
    rows2: &'f [u64],
    buf: &'g mut [u8],
) -> Compared
    ensures value { result ≡ compared_on a.entry.geometry (length a.entry.bytes.now) b.entry.geometry (length b.entry.bytes.now)
        (asked_report a.entry.geometry a.entry.bytes.now b.entry.geometry b.entry.bytes.now w
        order.now rows.now order2.now rows2.now) (length buf.old) }
    ensures buf_after { buf.new ≡ bytes_left a.entry.geometry (length a.entry.bytes.now) b.entry.geometry (length b.entry.bytes.now)
        (asked_report a.entry.geometry a.entry.bytes.now b.entry.geometry b.entry.bytes.now w
        order.now rows.now order2.now rows2.now) buf.old }
{
    compare::whole::compare(
        w, a.bytes, a.geometry, order, rows, b.bytes, b.geometry, order2, rows2, buf,
    )
}

// Writes the report of two dumps that is asked for, each opened for it, if it fits: a call of C brings bytes and geometry apart (include/lohenarr.h), and
// document 02 names the form above.
pub fn compare_dumps(
    w: Which,
    bytes: &[u8],
    geometry: Geometry,
    order: &[u64],
    rows: &[u64],
    bytes2: &[u8],
    geometry2: Geometry,
    order2: &[u64],
    rows2: &[u64],
    buf: &mut [u8],
) -> Compared
    ensures value { result ≡ compared_on geometry (length bytes.now) geometry2 (length bytes2.now)
        (asked_report geometry bytes.now geometry2 bytes2.now w
        order.now rows.now order2.now rows2.now) (length buf.old) }
    ensures buf_after { buf.new ≡ bytes_left geometry (length bytes.now) geometry2 (length bytes2.now)
        (asked_report geometry bytes.now geometry2 bytes2.now w
        order.now rows.now order2.now rows2.now) buf.old }
{
    report(
        w,
        open(bytes, geometry),
        order,
        rows,
        open(bytes2, geometry2),
        order2,
        rows2,
        buf,
    )
}
