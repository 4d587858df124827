// Scans over the pages of a dump that are taken, each a single pass. A page whose tags do not name the object is passed over unread. What the four share is
// that test alone: one for all would take from its caller what it gathers, with the law of each step, and be longer than they are.
ghost use Rattle.std.specs.Prelude.{◌≡◌};
ghost use Rattle.page.specs.Choice.{pick};
ghost use Rattle.chunk.specs.Records.{age_of};
ghost use Rattle.page.specs.Records.{record_at};
ghost use Rattle.page.specs.declared.record.Record.TheVariants as Record;
ghost use Rattle.chunk.specs.Takes.{seen_by};
ghost use Rattle.chunk.specs.Newest.{newest, since};
ghost use Rattle.chunk.specs.Cuts.{lowest_cut};
ghost use Rattle.chunk.specs.Sizes.{data_end};
ghost use Rattle.chunk.specs.Scans.{wanted, newest_in, later_in, end_with, cut_with};

use crate::cut::{Cut, cut_of, lower};
use crate::record::{Want, end_of, is_wanted, order_of, sequence_of};
use crate::takes::{Takes, seen_at};
use page::geometry::Geometry;
use page::number::{ObjectId, PageNumber};
use page::record::{Data, Header, Record};
use page::tags::names_object;

// A page with its age.
#[derive(Clone, Copy)]
pub struct Aged {
    pub page: PageNumber,
    pub age: u64,
}

// The newest page of a scan, if there is one.
pub type Newest = Option<Aged>;

// The newer of a page and another, if there is another.
pub fn newer(other: Newest, page: PageNumber, age: u64) -> Newest
    ensures { result ≡ later_in other page.0 age }
{
    match other {
        Some(q) if age < q.age => other,
        _ => Some(Aged { page, age }),
    }
}

// The newer of the newest page so far and page n, if n is wanted. Apart from the scan, whose loop is then the test that most pages fail, and no more: with
// this in it each page took half as long again (docs/LOOK-BACK.md).
#[inline(never)]
fn newer_wanted(
    best: Newest,
    dump: &[u8],
    g: Geometry,
    t: Takes,
    n: PageNumber,
    o: ObjectId,
    w: Want,
) -> Newest
    ensures { result ≡ pick (wanted o.0 w (seen_by t (record_at g dump.now) n.0)) (later_in best n.0 (age_of (seen_by t (record_at g dump.now)) n.0)) best }
{
    let r = seen_at(dump, g, t, n);
    if !is_wanted(r, o, w) {
        return best;
    }
    newer(best, n, order_of(sequence_of(r), n))
}

// The newest of the first pages that is a wanted record of object o.
pub fn newest_page(dump: &[u8], g: Geometry, t: Takes, pages: u32, o: ObjectId, w: Want) -> Newest
    ensures { result ≡ newest_in (seen_by t (record_at g dump.now)) (newest (seen_by t (record_at g dump.now)) (wanted o.0 w) pages) }
{
    let mut best = None;
    for i in 0..pages {
        let n = PageNumber(i);
        if !names_object(dump, g, n, o) {
            continue;
        }
        best = newer_wanted(best, dump, g, t, n, o, w);
    }
    best
}

// How many of the first pages are records of object o that are not older than an age.
pub fn records_since(dump: &[u8], g: Geometry, t: Takes, pages: u32, o: ObjectId, age: u64) -> u32
    ensures { result ≡ since (seen_by t (record_at g dump.now)) o.0 age pages }
{
    let mut count: u32 = 0;
    for i in 0..pages {
        let n = PageNumber(i);
        if !names_object(dump, g, n, o) {
            continue;
        }
        let r = seen_at(dump, g, t, n);
        if is_wanted(r, o, Want::Record) && age <= order_of(sequence_of(r), n) {
            count += 1;
        }
    }
    count
}

// The largest end so far, with a data page too if it is one of object o that is newer than an age.
#[tactic(auto, using(crate::proofs::Tests::cases), unfolding(crate::specs::Scans::end_with))]
pub fn end_with(end: u64, data: u32, o: ObjectId, age: u64, n: PageNumber, d: Data) -> u64
    ensures { result ≡ end_with end «data» o.0 age n.0 (Record.Data d) }
{
    if d.object != o || order_of(d.sequence, n) <= age {
        return end;
    }
    end.max(end_of(data, d))
}

// The largest end among the data records of object o newer than an age.
pub fn data_end(dump: &[u8], g: Geometry, t: Takes, pages: u32, o: ObjectId, age: u64) -> u64
    ensures { result ≡ data_end (seen_by t (record_at g dump.now)) g.layout.«data» o.0 age pages }
{
    let mut end: u64 = 0;
    for i in 0..pages {
        let n = PageNumber(i);
        if !names_object(dump, g, n, o) {
            continue;
        }
        let Record::Data(d) = seen_at(dump, g, t, n) else {
            continue;
        };
        end = end_with(end, g.layout.data, o, age, n, d);
    }
    end
}

// The lowest cut so far, with a header too if it is one of object o that is newer than an age; h is the object's newest header.
#[tactic(auto, using(crate::proofs::Tests::cases), unfolding(crate::specs::Scans::cut_with, crate::specs::Cuts::cut_of))]
fn cut_with(cut: Cut, o: ObjectId, h: PageNumber, age: u64, n: PageNumber, header: Header) -> Cut
    ensures { result ≡ cut_with cut o.0 h.0 age n.0 (Record.Header header) }
{
    if header.object != o || order_of(header.sequence, n) <= age {
        return cut;
    }
    lower(cut_of(n == h, header), cut)
}

// The lowest cut of the headers of object o newer than an age, where h is its newest header.
pub fn lowest_cut(
    dump: &[u8],
    g: Geometry,
    t: Takes,
    pages: u32,
    o: ObjectId,
    h: PageNumber,
    age: u64,
) -> Cut
    ensures { result ≡ lowest_cut (seen_by t (record_at g dump.now)) o.0 h.0 age pages }
{
    let mut cut = None;
    for i in 0..pages {
        let n = PageNumber(i);
        if !names_object(dump, g, n, o) {
            continue;
        }
        let Record::Header(header) = seen_at(dump, g, t, n) else {
            continue;
        };
        cut = cut_with(cut, o, h, age, n, header);
    }
    cut
}
