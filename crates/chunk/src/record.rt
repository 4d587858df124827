// What the rules ask of a single record: its object, its place in the order, its chunk and byte count, its file size, its parent. A record that has no such
// field answers 0, as the definitions do, which compare it: no object and no chunk has that number. The functions are alike in form and read a field each.
ghost use Rattle.std.specs.Prelude.{◌≡◌, max, min, ◌+◌, ◌<◌, ◌^◌};
ghost use Rattle.page.specs.Records.{is_header};
ghost use Rattle.chunk.specs.Records.{object_of, sequence_of, order_of, is_of, is_copy, count_of, file_size, gone_under, is_gone, is_file, base_of};
ghost use Rattle.chunk.specs.Scans.{wanted};
ghost use Rattle.chunk.specs.Sizes.{end_of};
ghost use Rattle.page.specs.declared.record.Record.TheVariants as Record;

use page::number::{ChunkNumber, ObjectId, PageNumber};
use page::record::{Data, Record};

// Which records of an object are wanted: all, its headers, or the data pages of a chunk. Contracts say it, as a closure could not be named in them.
#[derive(Clone, Copy)]
pub enum Want {
    Record,
    Header,
    Copy(ChunkNumber),
}

// The type of a file.
pub const FILE: u32 = 1;

// The parents of unlinked and of deleted objects.
const UNLINKED: u32 = 3;

const DELETED: u32 = 4;

// Whether an object under this parent is unlinked or deleted.
#[tactic(auto, using(crate::proofs::Tests::cases))]
pub fn gone_under(parent: ObjectId) -> bool
    ensures { result ≡ gone_under parent.0 }
{
    parent.0 == UNLINKED || parent.0 == DELETED
}

// The object of a record; 0 for a page that is none.
pub fn object_of(r: Record) -> u32
    ensures { result ≡ object_of r }
{
    match r {
        Record::Other => 0,
        Record::Header(h) => h.object.0,
        Record::Data(d) => d.object.0,
    }
}

// The sequence of a record.
pub fn sequence_of(r: Record) -> u32
    ensures { result ≡ sequence_of r }
{
    match r {
        Record::Other => 0,
        Record::Header(h) => h.sequence,
        Record::Data(d) => d.sequence,
    }
}

// The byte count of a data page; 0 for another.
#[tactic(auto, using(crate::proofs::Tests::cases))]
pub fn count_of(r: Record) -> u32
    ensures { result ≡ count_of r }
{
    match r {
        Record::Other | Record::Header(_) => 0,
        Record::Data(d) => d.count,
    }
}

// The file size of a header; 0 for another page.
#[tactic(auto, using(crate::proofs::Tests::cases))]
pub fn file_size(r: Record) -> u32
    ensures { result ≡ file_size r }
{
    match r {
        Record::Header(h) => h.size,
        Record::Other | Record::Data(_) => 0,
    }
}

// Whether a page is a header.
#[tactic(auto, using(crate::proofs::Tests::cases))]
pub fn is_header(r: Record) -> bool
    ensures { result ≡ is_header r }
{
    matches!(r, Record::Header(_))
}

// Whether a page is the header of a file.
#[tactic(auto, using(crate::proofs::Tests::cases))]
pub fn is_file(r: Record) -> bool
    ensures { result ≡ is_file r }
{
    match r {
        Record::Header(h) => h.page_type == FILE,
        Record::Other | Record::Data(_) => false,
    }
}

// Whether a page is the header of an unlinked or deleted object.
#[tactic(auto, using(crate::proofs::Tests::cases))]
pub fn is_gone(r: Record) -> bool
    ensures { result ≡ is_gone r }
{
    match r {
        Record::Header(h) => gone_under(h.parent),
        Record::Other | Record::Data(_) => false,
    }
}

// The place of a record in the order: by sequence, then by page number.
pub fn order_of(sequence: u32, n: PageNumber) -> u64
    ensures { result ≡ order_of sequence n.0 }
{
    (sequence as u64) * 4294967296 + (n.0 as u64)
}

// Where the bytes of a data page end in its file, with so many data bytes to a page.
pub fn end_of(data: u32, d: Data) -> u64
    ensures { result ≡ end_of «data» (Record.Data d) }
{
    base_of(data, d.chunk) + (d.count as u64)
}

// Where chunk n begins in its file, with so many data bytes to a page.
pub fn base_of(data: u32, n: ChunkNumber) -> u64
    ensures value { result ≡ base_of «data» n.0 }
    ensures result_bound { result + 2 ^ 32 < 2 ^ 64 }
{
    (n.chunks_before() as u64) * (data as u64)
}

// Whether a page is a record of object o.
#[tactic(auto, using(crate::proofs::Tests::cases))]
pub fn is_of(r: Record, o: ObjectId) -> bool
    ensures { result ≡ is_of o.0 r }
{
    match r {
        Record::Other => false,
        Record::Header(h) => h.object == o,
        Record::Data(d) => d.object == o,
    }
}

// Whether a page is a data page of chunk number c.
#[tactic(auto, using(crate::proofs::Tests::cases))]
pub fn is_copy(r: Record, c: ChunkNumber) -> bool
    ensures { result ≡ is_copy c.0 r }
{
    match r {
        Record::Other | Record::Header(_) => false,
        Record::Data(d) => d.chunk == c,
    }
}

// Whether a page is a wanted record of object o.
#[tactic(auto, using(crate::proofs::Tests::cases))]
pub fn is_wanted(r: Record, o: ObjectId, w: Want) -> bool
    ensures { result ≡ wanted o.0 w r }
{
    is_of(r, o)
        && match w {
            Want::Record => true,
            Want::Header => is_header(r),
            Want::Copy(c) => is_copy(r, c),
        }
}
