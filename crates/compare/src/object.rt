// The lines of one object of two dumps, by its words on each side. They are put by `text::put`, which measures on no bytes what it else writes: a formatter
// of the library does not, and there is no heap to write to.
ghost use Rattle.std.specs.Prelude.{Some, ◌≢◌, map, length};
ghost use Rattle.sort.specs.Lists.{joined};
ghost use Rattle.text.specs.Lines.{line_of};
ghost use Rattle.text.specs.Put.{Put};
ghost use Rattle.text.specs.Quoted.{bytes_of};
ghost use Rattle.compare.specs.Differences.{field, fields_of, sizes_of, differences_of};
ghost use Rattle.compare.specs.Heads.{page_of};
ghost use Rattle.compare.specs.Lines.{side_lines, header_lines, content_lines};
ghost use Rattle.compare.specs.Report.{lines_of, object_lines};
ghost use Rattle.compare.specs.Sides.{rows_show, side_of};
ghost use Rattle.compare.specs.Views.{bytes_on};

use crate::fields::put_fields;
use crate::head::{Head, head_of, header_bytes, is_deleted, size_of};
use crate::stretches::put_stretches;
use page::geometry::Geometry;
use page::number::ObjectId;
use text::put::put_line;

// The numbers of the sides.
const FIRST: u64 = 1;

const SECOND: u64 = 2;

// Puts the line of what is so on one side only.
#[tactic(auto, using(crate::proofs::Tests::cases))]
fn put_side(buf: &mut [u8], at: usize, key: &[u8], one: bool, other: bool) -> usize
    ensures { Put (side_lines key.now one other) buf.old at buf.new result }
{
    match (one, other) {
        (true, false) => put_line(buf, at, key, FIRST),
        (false, true) => put_line(buf, at, key, SECOND),
        _ => at,
    }
}

// Puts the lines of the fields that differ, if there are two headers.
#[tactic(auto, using(crate::proofs::Tests::cases), unfolding(crate::specs::Differences::fields_of))]
fn put_header_fields(
    dump: &[u8],
    g: Geometry,
    one: Head,
    dump2: &[u8],
    g2: Geometry,
    other: Head,
    buf: &mut [u8],
    at: usize,
) -> usize
    ensures { Put (joined lines_of (map field (fields_of (bytes_on g dump.now (page_of one)) (bytes_on g2 dump2.now (page_of other))))) buf.old at buf.new result }
{
    match (one, other) {
        (Some(one), Some(other)) => put_fields(
            header_bytes(dump, g, one.page),
            header_bytes(dump2, g2, other.page),
            buf,
            at,
        ),
        _ => at,
    }
}

// Puts what differs between the newest headers.
fn put_headers(
    dump: &[u8],
    g: Geometry,
    one: Head,
    dump2: &[u8],
    g2: Geometry,
    other: Head,
    buf: &mut [u8],
    at: usize,
) -> usize
    ensures { Put (header_lines g dump.now g2 dump2.now (page_of one) (page_of other)) buf.old at buf.new result }
{
    let deleted = put_side(
        buf,
        at,
        b"deleted=",
        is_deleted(dump, g, one),
        is_deleted(dump2, g2, other),
    );
    let missing = put_side(buf, deleted, b"noheader=", one.is_none(), other.is_none());
    put_header_fields(dump, g, one, dump2, g2, other, buf, missing)
}

// Puts the sizes of two files, if they differ.
fn put_sizes(one: u64, other: u64, buf: &mut [u8], at: usize) -> usize
    ensures { Put (joined lines_of (sizes_of (Some one) (Some other))) buf.old at buf.new result }
{
    if one == other {
        return at;
    }
    let next = put_line(buf, at, b"size=", one);
    put_line(buf, next, b"size=", other)
}

// Puts what differs between two files, if both are live ones.
#[tactic(auto, using(crate::proofs::Tests::cases), unfolding(crate::specs::Lines::content_lines, crate::specs::Differences::stretches_of))]
fn put_contents(
    dump: &[u8],
    g: Geometry,
    one: Option<u64>,
    rows: &[u64],
    dump2: &[u8],
    g2: Geometry,
    other: Option<u64>,
    rows2: &[u64],
    buf: &mut [u8],
    at: usize,
) -> usize
    ensures { Put (content_lines (rows_show g dump.now rows.now) (rows_show g2 dump2.now rows2.now) one other) buf.old at buf.new result }
{
    match (one, other) {
        (Some(y), Some(z)) => {
            let next = put_sizes(y, z, buf, at);
            put_stretches(dump, g, rows, dump2, g2, rows2, y.min(z), buf, next)
        }
        _ => at,
    }
}

// Puts what differs of an object that both sides have.
fn put_both(
    dump: &[u8],
    g: Geometry,
    order: &[u64],
    rows: &[u64],
    dump2: &[u8],
    g2: Geometry,
    order2: &[u64],
    rows2: &[u64],
    buf: &mut [u8],
    at: usize,
) -> usize
    requires order_nonzero { length order.now ≢ 0 }
    requires order2_nonzero { length order2.now ≢ 0 }
    ensures { Put (joined lines_of (differences_of (side_of g dump.now order.now rows.now) (side_of g2 dump2.now order2.now rows2.now))) buf.old at buf.new result }
{
    let one = head_of(dump, g, order);
    let other = head_of(dump2, g2, order2);
    let next = put_headers(dump, g, one, dump2, g2, other, buf, at);
    put_contents(
        dump,
        g,
        size_of(dump, g, one),
        rows,
        dump2,
        g2,
        size_of(dump2, g2, other),
        rows2,
        buf,
        next,
    )
}

// Puts the lines of all that differs.
#[tactic(auto, using(crate::proofs::Tests::cases, crate::proofs::Lining::lines_single))]
pub(crate) fn put_differences(
    dump: &[u8],
    g: Geometry,
    order: &[u64],
    rows: &[u64],
    dump2: &[u8],
    g2: Geometry,
    order2: &[u64],
    rows2: &[u64],
    buf: &mut [u8],
    at: usize,
) -> usize
    ensures { Put (joined lines_of (differences_of (side_of g dump.now order.now rows.now) (side_of g2 dump2.now order2.now rows2.now))) buf.old at buf.new result }
{
    if order.is_empty() || order2.is_empty() {
        return put_side(buf, at, b"only=", !order.is_empty(), !order2.is_empty());
    }
    put_both(dump, g, order, rows, dump2, g2, order2, rows2, buf, at)
}

// Puts the line that names object o.
pub(crate) fn put_name(buf: &mut [u8], at: usize, o: ObjectId) -> usize
    ensures { Put (line_of (bytes_of "object=") o.0) buf.old at buf.new result }
{
    put_line(buf, at, b"object=", o.0 as u64)
}

// Puts the lines of object o: none where nothing differs. What differs is measured first, by the same function on no bytes: so no text is described twice.
pub(crate) fn put_object(
    o: ObjectId,
    dump: &[u8],
    g: Geometry,
    order: &[u64],
    rows: &[u64],
    dump2: &[u8],
    g2: Geometry,
    order2: &[u64],
    rows2: &[u64],
    buf: &mut [u8],
    at: usize,
) -> usize
    ensures { Put (object_lines o.0 (differences_of (side_of g dump.now order.now rows.now) (side_of g2 dump2.now order2.now rows2.now))) buf.old at buf.new result }
{
    let n = put_differences(
        dump,
        g,
        order,
        rows,
        dump2,
        g2,
        order2,
        rows2,
        &mut buf[..0],
        0,
    );
    if n == 0 {
        return at;
    }
    let next = put_name(buf, at, o);
    put_differences(dump, g, order, rows, dump2, g2, order2, rows2, buf, next)
}
