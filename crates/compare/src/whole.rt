// The report of two prepared dumps: which object comes next, the report of one object, and the whole report.
ghost use Rattle.std.specs.Prelude.{◌≡◌, ◌+◌, ◌≤◌, length};
ghost use Rattle.page.specs.Lengths.{opened_of};
ghost use Rattle.sort.specs.Lists.{joined};
ghost use Rattle.text.specs.Lines.{line_of};
ghost use Rattle.text.specs.Put.{Put};
ghost use Rattle.text.specs.Quoted.{bytes_of};
ghost use Rattle.text.specs.Whole.{written_by, bytes_by};
ghost use Rattle.compare.specs.Answers.{earlier_of, both_of, compared_by, compared_on, bytes_left};
ghost use Rattle.compare.specs.Bounds.{most_of, Small};
ghost use Rattle.compare.specs.Differences.{differences_of};
ghost use Rattle.compare.specs.Report.{lines_of};
ghost use Rattle.compare.specs.Sides.{side_of};
ghost use Rattle.compare.specs.Lists.{next_of, next_in, sides_report, lists_report, asked_report};

use crate::answer::{Compared, Which};
use crate::head::{head_of, size_of};
use crate::object::{put_differences, put_name, put_object};
use crate::part::part;
use crate::runs::run_of;
use crate::stretches::stretches_in;
use page::geometry::Geometry;
use page::number::ObjectId;
use page::refusal::{Refusal, Short};
use sort::rows::key_of;
use text::written;

// How many bytes of a text were written, or how many it needs.
type Written = Result<usize, written::Short>;

// The bytes of all lines of an object but those of stretches, and of the line of a stretch, at most.
const PLAIN_BYTES: u64 = 1024;

const LINE_BYTES: u64 = 29;

// The object that comes next, and how many words at the front of each list are of it.
#[derive(Clone, Copy)]
pub struct Turn {
    pub object: u32,
    pub first: usize,
    pub second: usize,
}

// The object that comes next in two lists; 0 where both are empty.
#[tactic(auto, using(crate::proofs::Tests::cases))]
fn object_at(order: &[u64], order2: &[u64]) -> u32
    ensures { result ≡ next_of order.now order2.now }
{
    match (order.first(), order2.first()) {
        (Some(&x), Some(&y)) => key_of(x).min(key_of(y)),
        (Some(&x), None) | (None, Some(&x)) => key_of(x),
        // no object has the number 0: so C has it (lohenarr_compare_next)
        (None, None) => 0,
    }
}

// The object that comes next in the words of two dumps, and how many words at the front of each are of it; object 0 and none where there are no words.
#[tactic(auto, using(crate::proofs::Tests::cases))]
pub fn next(order: &[u64], order2: &[u64]) -> Turn
    ensures { result ≡ next_in order.now order2.now }
{
    let object = object_at(order, order2);
    Turn {
        object,
        first: run_of(order, object),
        second: run_of(order2, object),
    }
}

// Puts the reports of all objects, one after the other.
#[tactic(auto, using(crate::proofs::Tests::cases, text::proofs::Putting::kept, crate::proofs::Listing::under_start, crate::proofs::Listing::turn_by))]
fn put_reports(
    dump: &[u8],
    g: Geometry,
    order: &[u64],
    rows: &[u64],
    dump2: &[u8],
    g2: Geometry,
    order2: &[u64],
    rows2: &[u64],
    buf: &mut [u8],
    at: usize,
) -> usize
    ensures { Put (lists_report g dump.now g2 dump2.now order.now rows.now order2.now rows2.now) buf.old at buf.new result }
{
    let all = order.len() + order2.len();
    let mut put = at;
    let mut i: usize = 0;
    let mut j: usize = 0;
    while i + j < all {
        let t = next(&order[i..], &order2[j..]);
        let e = i + t.first;
        let f = j + t.second;
        put = put_object(
            ObjectId(t.object),
            dump,
            g,
            &order[i..e],
            part(rows, i, t.first),
            dump2,
            g2,
            &order2[j..f],
            part(rows2, j, t.second),
            buf,
            put,
        );
        i = e;
        j = f;
    }
    put
}

// Writes the whole report, if it fits: measured first, by the same function on no bytes. Where nothing differs there is nothing to write, and all bytes are
// gone over once.
fn write_reports(
    dump: &[u8],
    g: Geometry,
    order: &[u64],
    rows: &[u64],
    dump2: &[u8],
    g2: Geometry,
    order2: &[u64],
    rows2: &[u64],
    buf: &mut [u8],
) -> Written
    ensures value { result ≡ written_by (length buf.old) (lists_report g dump.now g2 dump2.now order.now rows.now order2.now rows2.now) }
    ensures buf_after { buf.new ≡ bytes_by (lists_report g dump.now g2 dump2.now order.now rows.now order2.now rows2.now) buf.old }
{
    let need = put_reports(
        dump,
        g,
        order,
        rows,
        dump2,
        g2,
        order2,
        rows2,
        &mut buf[..0],
        0,
    );
    if buf.len() < need {
        return Err(written::Short { needed: need });
    }
    if need == 0 {
        return Ok(0);
    }
    put_reports(dump, g, order, rows, dump2, g2, order2, rows2, buf, 0);
    Ok(need)
}

// More bytes than this no report of an object has, by the sizes of its files.
#[tactic(auto, using(crate::proofs::Tests::cases))]
fn most_bytes(one: Option<u64>, other: Option<u64>) -> u64
    ensures value { result ≡ most_of one other }
    ensures small { Small one other }
{
    match (one, other) {
        (Some(y), Some(z)) => PLAIN_BYTES + stretches_in(y.min(z)) * LINE_BYTES,
        _ => PLAIN_BYTES,
    }
}

// Writes the report of object o, for which there is room: what differs behind the place of its line, and then the line, if something does.
fn write_straight(
    o: ObjectId,
    dump: &[u8],
    g: Geometry,
    order: &[u64],
    rows: &[u64],
    dump2: &[u8],
    g2: Geometry,
    order2: &[u64],
    rows2: &[u64],
    buf: &mut [u8],
) -> Written
    requires { length (line_of (bytes_of "object=") o.0) + length (joined lines_of (differences_of (side_of g dump.now order.now rows.now) (side_of g2 dump2.now order2.now rows2.now))) ≤ length buf.old }
    ensures value { result ≡ written_by (length buf.old) (sides_report g dump.now g2 dump2.now o.0 order.now rows.now order2.now rows2.now) }
    ensures buf_after { buf.new ≡ bytes_by (sides_report g dump.now g2 dump2.now o.0 order.now rows.now order2.now rows2.now) buf.old }
{
    let line = put_name(&mut buf[..0], 0, o);
    let next = put_differences(dump, g, order, rows, dump2, g2, order2, rows2, buf, line);
    if next == line {
        return Ok(0);
    }
    put_name(buf, 0, o);
    Ok(next)
}

// Writes the report of object o, if it fits: measured first, and written if something differs. Not one function with `write_reports`: that one asks
// whether the text is empty, this one whether there is one behind the object's line, so that what differs is gone over twice and not four times.
fn write_measured(
    o: ObjectId,
    dump: &[u8],
    g: Geometry,
    order: &[u64],
    rows: &[u64],
    dump2: &[u8],
    g2: Geometry,
    order2: &[u64],
    rows2: &[u64],
    buf: &mut [u8],
) -> Written
    ensures value { result ≡ written_by (length buf.old) (sides_report g dump.now g2 dump2.now o.0 order.now rows.now order2.now rows2.now) }
    ensures buf_after { buf.new ≡ bytes_by (sides_report g dump.now g2 dump2.now o.0 order.now rows.now order2.now rows2.now) buf.old }
{
    let line = put_name(&mut buf[..0], 0, o);
    let need = put_differences(
        dump,
        g,
        order,
        rows,
        dump2,
        g2,
        order2,
        rows2,
        &mut buf[..0],
        line,
    );
    if need == line {
        return Ok(0);
    }
    if buf.len() < need {
        return Err(written::Short { needed: need });
    }
    put_name(buf, 0, o);
    put_differences(dump, g, order, rows, dump2, g2, order2, rows2, buf, line);
    Ok(need)
}

// Writes the report of object o, if it fits. Where so many bytes are lent that any report of its files would fit, what differs is gone over once, and
// else twice; what does not differ once.
#[tactic(auto, using(crate::proofs::Tests::cases, crate::proofs::Bounded::sides_most))]
fn write_object(
    o: ObjectId,
    dump: &[u8],
    g: Geometry,
    order: &[u64],
    rows: &[u64],
    dump2: &[u8],
    g2: Geometry,
    order2: &[u64],
    rows2: &[u64],
    buf: &mut [u8],
) -> Written
    ensures value { result ≡ written_by (length buf.old) (sides_report g dump.now g2 dump2.now o.0 order.now rows.now order2.now rows2.now) }
    ensures buf_after { buf.new ≡ bytes_by (sides_report g dump.now g2 dump2.now o.0 order.now rows.now order2.now rows2.now) buf.old }
{
    let one = size_of(dump, g, head_of(dump, g, order));
    let other = size_of(dump2, g2, head_of(dump2, g2, order2));
    if most_bytes(one, other) <= buf.len() as u64 {
        return write_straight(o, dump, g, order, rows, dump2, g2, order2, rows2, buf);
    }
    write_measured(o, dump, g, order, rows, dump2, g2, order2, rows2, buf)
}

// Writes the report that is asked for, if it fits.
#[tactic(auto, using(crate::proofs::Tests::cases))]
fn write_asked(
    w: Which,
    dump: &[u8],
    g: Geometry,
    order: &[u64],
    rows: &[u64],
    dump2: &[u8],
    g2: Geometry,
    order2: &[u64],
    rows2: &[u64],
    buf: &mut [u8],
) -> Written
    ensures value { result ≡ written_by (length buf.old) (asked_report g dump.now g2 dump2.now w order.now rows.now order2.now rows2.now) }
    ensures buf_after { buf.new ≡ bytes_by (asked_report g dump.now g2 dump2.now w order.now rows.now order2.now rows2.now) buf.old }
{
    match w {
        Which::All => write_reports(dump, g, order, rows, dump2, g2, order2, rows2, buf),
        Which::One(o) => write_object(o, dump, g, order, rows, dump2, g2, order2, rows2, buf),
    }
}

// The answer by what became of a text. `tree` has the like; a From would have to stand in `page` or `text`, of which neither knows the other.
#[tactic(auto, using(crate::proofs::Tests::cases))]
fn compared_by(w: Written) -> Compared
    ensures { result ≡ compared_by w }
{
    match w {
        Ok(n) => Ok(n as u64),
        Err(short) => Err(Short {
            refusal: Refusal::ShortBuffer,
            need: short.needed as u64,
        }),
    }
}

// The refusal that comes first in the table's order, which is that of their numbers.
#[tactic(auto, using(crate::proofs::Tests::cases))]
fn earlier(r: Refusal, s: Refusal) -> Refusal
    ensures { result ≡ earlier_of r s }
{
    if s.number() < r.number() { s } else { r }
}

// That two dumps are accepted, or by what they are refused.
#[tactic(auto, using(crate::proofs::Tests::cases))]
fn both(g: Geometry, bytes: usize, g2: Geometry, bytes2: usize) -> Result<(), Refusal>
    ensures { result ≡ both_of (opened_of g bytes) (opened_of g2 bytes2) }
{
    match (g.opened(bytes), g2.opened(bytes2)) {
        (Ok(_), Ok(_)) => Ok(()),
        (Err(r), Err(s)) => Err(earlier(r, s)),
        (Err(r), Ok(_)) | (Ok(_), Err(r)) => Err(r),
    }
}

// Writes the report of two dumps that is asked for, by the words that they were prepared to, if it fits. For one object these are its words on each
// side.
#[tactic(auto, using(crate::proofs::Tests::cases), unfolding(crate::specs::Answers::compared_on, crate::specs::Answers::bytes_left))]
pub fn compare(
    w: Which,
    dump: &[u8],
    g: Geometry,
    order: &[u64],
    rows: &[u64],
    dump2: &[u8],
    g2: Geometry,
    order2: &[u64],
    rows2: &[u64],
    buf: &mut [u8],
) -> Compared
    ensures value { result ≡ compared_on g (length dump.now) g2 (length dump2.now) (asked_report g dump.now g2 dump2.now w order.now rows.now order2.now rows2.now) (length buf.old) }
    ensures buf_after { buf.new ≡ bytes_left g (length dump.now) g2 (length dump2.now) (asked_report g dump.now g2 dump2.now w order.now rows.now order2.now rows2.now) buf.old }
{
    both(g, dump.len(), g2, dump2.len())?;
    compared_by(write_asked(w, dump, g, order, rows, dump2, g2, order2, rows2, buf))
}
