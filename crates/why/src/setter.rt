// The page that sets the size of a file: its newest header by the file size that it has, or data newer than that by where its bytes end; the newest if
// several do.
ghost use Rattle.std.specs.Prelude.{◌||◌, ◌≡◌, eqb};
ghost use Rattle.page.specs.Records.{record_at};
ghost use Rattle.page.specs.Tags.{names_at};
ghost use Rattle.chunk.specs.Sizes.{size_of};
ghost use Rattle.chunk.specs.Takes.{seen_by};
ghost use Rattle.why.specs.Reasons.{sets_by, setter};

use chunk::record::{end_of, file_size, order_of, sequence_of};
use chunk::scan::newer;
use chunk::takes::{Takes, seen_at};
use page::geometry::Geometry;
use page::number::{ObjectId, PageNumber};
use page::record::Record;
use page::tags::names_object;

// Whether page p, which is this record, sets a size: it is page h, and has it as its file size; or it is data of object o that is newer than an age,
// and ends there. Page h is told first, whatever its kind.
#[tactic(auto, using(crate::proofs::Tests::cases))]
fn sets_size(
    data: u32,
    o: ObjectId,
    h: PageNumber,
    age: u64,
    size: u64,
    p: PageNumber,
    r: Record,
) -> bool
    ensures { result ≡ sets_by «data» o.0 h.0 age size p.0 r }
{
    if p == h && u64::from(file_size(r)) == size {
        return true;
    }
    match r {
        Record::Other | Record::Header(_) => false,
        Record::Data(d) => {
            d.object == o && age < order_of(d.sequence, p) && end_of(data, d) == size
        }
    }
}

// Whether page p may set the size of the file of object o: it is page h, or its tags name the object.
#[tactic(auto, using(crate::proofs::Tests::cases))]
fn may_set(dump: &[u8], g: Geometry, o: ObjectId, h: PageNumber, p: PageNumber) -> bool
    ensures { result ≡ eqb p.0 h.0 || names_at g dump.now p.0 o.0 }
{
    p == h || names_object(dump, g, p, o)
}

// The newest page that sets the size of the file of object o, whose newest header is page h. Its pass reads that page too, whatever its tags name, which
// chunk's do not.
pub(crate) fn setter(
    dump: &[u8],
    g: Geometry,
    t: Takes,
    pages: u32,
    o: ObjectId,
    h: PageNumber,
    size: u64,
) -> PageNumber
    requires { size ≡ size_of (seen_by t (record_at g dump.now)) g.layout.«data» o.0 h.0 pages }
    ensures { result.0 ≡ setter (seen_by t (record_at g dump.now)) g.layout.«data» o.0 pages h.0 }
{
    let age = order_of(sequence_of(seen_at(dump, g, t, h)), h);
    let mut best = None;
    for i in 0..pages {
        let p = PageNumber(i);
        if !may_set(dump, g, o, h, p) {
            continue;
        }
        let r = seen_at(dump, g, t, p);
        if sets_size(g.layout.data, o, h, age, size, p, r) {
            best = newer(best, p, order_of(sequence_of(r), p));
        }
    }
    match best {
        None => h,
        Some(newest) => newest.page,
    }
}
