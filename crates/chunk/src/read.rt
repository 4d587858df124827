// The bytes of a chunk: read into a lent buffer, or borrowed as a part of the dump.
ghost use Rattle.std.specs.Prelude.{◌≡◌, ◌++◌, ◌-◌, ◌≤◌, length, take, drop, replicate};
ghost use Rattle.chunk.specs.Answers.{chunk_on, read_by, valid_part, part_by, overlaid, buffer_by};

use crate::answer::{Chunk, Looked, Visited};
use crate::lookup::chunk;
use page::geometry::Geometry;
use page::number::{ChunkNumber, ObjectId, PageNumber};
use page::refusal::{Refusal, Short};
use sort::room::copy;

// The first bytes of the data on page p; none where the page is not in the dump or has not so many.
fn valid_part(dump: &[u8], g: Geometry, p: PageNumber, valid: u32) -> &[u8]
    ensures { result.now ≡ valid_part g dump.now p.0 valid }
{
    if !g.holds(dump.len(), p) || g.layout.data < valid {
        return &[];
    }
    let a = (p.0 as usize) * g.layout.page_len();
    let e = a + (valid as usize);
    &dump[a..e]
}

// The valid bytes of a chunk that was looked up, as a part of the dump; an empty part for a hole or a refusal.
#[tactic(auto, using(crate::proofs::Tests::cases), unfolding(crate::specs::Answers::part_by))]
pub fn part_of(dump: &[u8], g: Geometry, a: Looked) -> &[u8]
    ensures { result.now ≡ part_by g dump.now a }
{
    match a {
        Ok(Chunk::Copy { page, valid, .. }) => valid_part(dump, g, page, valid),
        _ => &[],
    }
}

// Lays a part at the begin of a buffer, with zeros behind it up to a length.
fn overlay(buffer: &mut [u8], part: &[u8], shown: usize)
    requires { shown ≤ length buffer.old }
    ensures { buffer.new ≡ overlaid part.now shown buffer.old }
{
    let count = part.len().min(shown);
    copy(&mut buffer[..count], &part[..count]);
    buffer[count..shown].fill(0);
}

// Reads a chunk that was looked up into a buffer, if the buffer has room for what is shown.
pub fn read_into(dump: &[u8], g: Geometry, a: Looked, buffer: &mut [u8]) -> Looked
    ensures value { result ≡ read_by (length buffer.old) a }
    ensures buffer_after { buffer.new ≡ buffer_by g dump.now buffer.old result }
{
    let chunk = a?;
    let need = chunk.shown();
    if buffer.len() < (need as usize) {
        return Err(Visited {
            answer: Short {
                refusal: Refusal::ShortBuffer,
                need,
            },
            visits: chunk.visits(),
        });
    }
    overlay(buffer, part_of(dump, g, a), need as usize);
    a
}

// Chunk c of object o, read into a buffer.
#[tactic(auto, using(crate::proofs::Tests::cases))]
pub fn read(dump: &[u8], g: Geometry, o: ObjectId, c: ChunkNumber, buffer: &mut [u8]) -> Looked
    ensures value { result ≡ read_by (length buffer.old) (chunk_on g dump.now o.0 c.0) }
    ensures buffer_after { buffer.new ≡ buffer_by g dump.now buffer.old result }
{
    read_into(dump, g, chunk(dump, g, o, c), buffer)
}

// The valid bytes of chunk c of object o, as a part of the dump.
#[tactic(auto, using(crate::proofs::Tests::cases))]
pub fn part(dump: &[u8], g: Geometry, o: ObjectId, c: ChunkNumber) -> &[u8]
    ensures { result.now ≡ part_by g dump.now (chunk_on g dump.now o.0 c.0) }
{
    part_of(dump, g, chunk(dump, g, o, c))
}
