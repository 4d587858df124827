// The lookups of an object on a dump alone: its size, and the pages of its chunks.
ghost use Rattle.std.specs.Prelude.{◌≡◌, min, ◌-◌};
ghost use Rattle.page.specs.Records.{record_at};
ghost use Rattle.chunk.specs.Records.{age_of};
ghost use Rattle.chunk.specs.Cuts.{leaves};
ghost use Rattle.chunk.specs.Sizes.{size_of};
ghost use Rattle.chunk.specs.Lookups.{file_at, file_of, sized_of, copy_at, chunk_by, looked_of};
ghost use Rattle.chunk.specs.Answers.{size_on, chunk_on};

use crate::answer::{Chunk, File, Looked, Sized, Visited};
use crate::cut::{Cut, hides, leaves};
use crate::record::{FILE, Want, base_of, count_of, file_size, gone_under, order_of, sequence_of};
use crate::scan::{Aged, data_end, lowest_cut, newest_page, records_since};
use crate::takes::Takes;
use page::geometry::Geometry;
use page::number::{ChunkNumber, ObjectId, PageNumber};
use page::record::{Record, record_at};
use page::refusal::{Refusal, Short};

// What an object is whose newest header is page h and is this record.
#[tactic(auto, using(crate::proofs::Tests::cases), unfolding(crate::specs::Lookups::file_at))]
pub fn file_at(r: Record, h: PageNumber, visits: u32) -> File
    ensures { result ≡ file_at r h.0 visits }
{
    // taken apart by let .. else, as document 01 names the form
    let Record::Header(header) = r else {
        return Err(Visited {
            answer: Refusal::NotAFile,
            visits,
        });
    };
    if gone_under(header.parent) {
        return Err(Visited {
            answer: Refusal::Deleted,
            visits,
        });
    }
    if header.page_type != FILE {
        return Err(Visited {
            answer: Refusal::NotAFile,
            visits,
        });
    }
    Ok(Visited { answer: h, visits })
}

// The live file that object o is, if it is one.
#[tactic(auto, using(crate::proofs::Tests::cases), unfolding(crate::specs::Lookups::file_of, crate::specs::Lookups::file_by))]
fn file_of(dump: &[u8], g: Geometry, pages: u32, o: ObjectId) -> File
    ensures { result ≡ file_of (record_at g dump.now) o.0 pages }
{
    let all = records_since(dump, g, Takes::Every, pages, o, 0);
    if all == 0 {
        return Err(Refusal::NoObject.into());
    }
    match newest_page(dump, g, Takes::Every, pages, o, Want::Header) {
        None => Err(Visited {
            answer: Refusal::NoHeader,
            visits: all,
        }),
        Some(Aged { page, age }) => {
            let visits = records_since(dump, g, Takes::Every, pages, o, age);
            file_at(record_at(dump, g, page), page, visits)
        }
    }
}

// The size of a file whose newest header is page h.
#[tactic(auto, using(crate::proofs::Tests::cases), unfolding(crate::specs::Sizes::size_of))]
fn size_of(dump: &[u8], g: Geometry, pages: u32, o: ObjectId, h: PageNumber) -> u64
    ensures { result ≡ size_of (record_at g dump.now) g.layout.«data» o.0 h.0 pages }
{
    let r = record_at(dump, g, h);
    let end = data_end(dump, g, Takes::Every, pages, o, order_of(sequence_of(r), h));
    end.max(file_size(r) as u64)
}

// The size of object o of a dump of so many pages.
#[tactic(auto, using(crate::proofs::Tests::cases), unfolding(crate::specs::Lookups::sized_of, crate::specs::Lookups::sized_by))]
fn size_in(dump: &[u8], g: Geometry, pages: u32, o: ObjectId) -> Sized
    ensures { result ≡ sized_of (record_at g dump.now) o.0 pages g.layout.«data» }
{
    if o.is_bad() {
        return Err(Refusal::BadObject.into());
    }
    let Visited { answer: h, visits } = file_of(dump, g, pages, o)?;
    Ok(Visited {
        answer: size_of(dump, g, pages, o, h),
        visits,
    })
}

// The size of object o.
#[tactic(auto, using(crate::proofs::Tests::cases), unfolding(crate::specs::Answers::size_on))]
pub fn size(dump: &[u8], g: Geometry, o: ObjectId) -> Sized
    ensures { result ≡ size_on g dump.now o.0 }
{
    let pages = g.opened(dump.len())?;
    size_in(dump, g, pages, o)
}

// How many bytes of a chunk that begins at base a file of this size shows.
#[tactic(auto, using(crate::proofs::Tests::cases))]
pub fn shown_of(data: u32, size: u64, base: u64) -> u32
    ensures { result ≡ min «data» (size - base) }
{
    size.saturating_sub(base).min(data as u64) as u32
}

// How many bytes of a copy are valid: of its byte count, of what is shown, and of what the lowest later cut leaves.
pub fn valid_of(count: u32, shown: u32, cut: Cut, base: u64) -> u32
    ensures { result ≡ min count (leaves cut base shown) }
{
    leaves(cut, base, shown).min(count)
}

// The copy of chunk c on page q, where h is the newest header.
#[tactic(auto, using(crate::proofs::Tests::cases), unfolding(crate::specs::Lookups::copy_at))]
fn copy_at(
    dump: &[u8],
    g: Geometry,
    pages: u32,
    o: ObjectId,
    c: ChunkNumber,
    h: PageNumber,
    shown: u32,
    q: PageNumber,
    age: u64,
) -> Looked
    requires { age ≡ age_of (record_at g dump.now) q.0 }
    ensures { result ≡ copy_at (record_at g dump.now) o.0 pages g.layout.«data» c.0 h.0 shown q.0 }
{
    let base = base_of(g.layout.data, c);
    let cut = lowest_cut(dump, g, Takes::Every, pages, o, h, age);
    if hides(cut, base) {
        return Ok(Chunk::Hole {
            shown,
            visits: records_since(dump, g, Takes::Every, pages, o, 0),
        });
    }
    let valid = valid_of(count_of(record_at(dump, g, q)), shown, cut, base);
    let older = age.min(order_of(sequence_of(record_at(dump, g, h)), h));
    Ok(Chunk::Copy {
        page: q,
        valid,
        shown,
        visits: records_since(dump, g, Takes::Every, pages, o, older),
    })
}

// Chunk c of a file of this size, whose newest header is page h.
#[tactic(auto, using(crate::proofs::Tests::cases), unfolding(crate::specs::Lookups::chunk_by, crate::specs::Lookups::copy_by))]
fn chunk_by(
    dump: &[u8],
    g: Geometry,
    pages: u32,
    o: ObjectId,
    c: ChunkNumber,
    h: PageNumber,
    visits: u32,
    size: u64,
) -> Looked
    ensures { result ≡ chunk_by (record_at g dump.now) o.0 pages g.layout.«data» c.0 h.0 visits size }
{
    let base = base_of(g.layout.data, c);
    if size <= base {
        return Err(Visited {
            answer: Refusal::PastEnd.into(),
            visits,
        });
    }
    let shown = shown_of(g.layout.data, size, base);
    match newest_page(dump, g, Takes::Every, pages, o, Want::Copy(c)) {
        None => Ok(Chunk::Hole {
            shown,
            visits: records_since(dump, g, Takes::Every, pages, o, 0),
        }),
        Some(Aged { page, age }) => copy_at(dump, g, pages, o, c, h, shown, page, age),
    }
}

// Chunk c of object o of a dump of so many pages.
#[tactic(auto, using(crate::proofs::Tests::cases), unfolding(crate::specs::Lookups::looked_of, crate::specs::Lookups::looked_by))]
fn look_in(dump: &[u8], g: Geometry, pages: u32, o: ObjectId, c: ChunkNumber) -> Looked
    ensures { result ≡ looked_of (record_at g dump.now) o.0 pages g.layout.«data» c.0 }
{
    if o.is_bad() {
        return Err(Refusal::BadObject.into());
    }
    if c.is_bad() {
        return Err(Refusal::BadChunk.into());
    }
    let Visited { answer: h, visits } = file_of(dump, g, pages, o)?;
    let size = size_of(dump, g, pages, o, h);
    chunk_by(dump, g, pages, o, c, h, visits, size)
}

// Chunk c of object o.
#[tactic(auto, using(crate::proofs::Tests::cases), unfolding(crate::specs::Answers::chunk_on))]
pub fn chunk(dump: &[u8], g: Geometry, o: ObjectId, c: ChunkNumber) -> Looked
    ensures { result ≡ chunk_on g dump.now o.0 c.0 }
{
    let pages = g.opened(dump.len())?;
    look_in(dump, g, pages, o, c)
}
