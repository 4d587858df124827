// The lookups of an object on a dump alone, the live list, and the numbers of objects. Each answers as on an index to which every page was
// added.
ghost use Rattle.std.specs.Prelude.{◌≡◌, length, take, drop};
ghost use Rattle.capi.specs.Layouts.{geometry_at};
ghost use Rattle.chunk.specs.Answers.{size_on, chunk_on, read_by, buffer_by, part_by};
ghost use Rattle.chunk.specs.Lists.{list_on, live_on, words_by, live_count_on, object_count_on};
ghost use Rattle.capi.specs.Lookups.{size_answer, chunk_answer, place_answer, list_answer, tally_answer};

use crate::answer::{ChunkAnswer, ListAnswer, PlaceAnswer, SizeAnswer, TallyAnswer, place_answer};
use crate::layout::{Geometry, geometry_at};
use chunk::list::{list, live_count, object_count};
use chunk::lookup::{chunk, size};
use chunk::read::read;
use page::number::{ChunkNumber, ObjectId};

// The size of an object.
pub fn lohenarr_dump_size(dump: &[u8], geometry: Geometry, object: u32) -> SizeAnswer
    ensures { result ≡ size_answer (size_on (geometry_at geometry) dump.now object) }
{
    size(dump, geometry_at(geometry), ObjectId(object)).into()
}

// A chunk of an object.
pub fn lohenarr_dump_chunk(dump: &[u8], geometry: Geometry, object: u32, n: u32) -> ChunkAnswer
    ensures { result ≡ chunk_answer (chunk_on (geometry_at geometry) dump.now object n) }
{
    chunk(
        dump,
        geometry_at(geometry),
        ObjectId(object),
        ChunkNumber(n),
    )
    .into()
}

// A chunk of an object, read into a buffer: the valid bytes, then zeros up to the shown length. Bytes past that stay, and a refusal writes
// nothing.
pub fn lohenarr_dump_read(
    dump: &[u8],
    geometry: Geometry,
    object: u32,
    n: u32,
    buffer: &mut [u8],
) -> ChunkAnswer
    ensures value { result ≡ chunk_answer (read_by (length buffer.old) (chunk_on (geometry_at geometry) dump.now object n)) }
    ensures buffer_after { buffer.new ≡ buffer_by (geometry_at geometry) dump.now buffer.old (read_by (length buffer.old) (chunk_on (geometry_at geometry) dump.now object n)) }
{
    read(
        dump,
        geometry_at(geometry),
        ObjectId(object),
        ChunkNumber(n),
        buffer,
    )
    .into()
}

// The valid bytes of a chunk of an object, as a part of the dump; an empty part for a hole or a refusal.
pub fn lohenarr_dump_part(dump: &[u8], geometry: Geometry, object: u32, n: u32) -> PlaceAnswer
    ensures value { result ≡ place_answer (geometry_at geometry) (length dump.now) (chunk_on (geometry_at geometry) dump.now object n) }
    ensures dump_value { take result.length (drop result.offset dump.now) ≡ part_by (geometry_at geometry) dump.now (chunk_on (geometry_at geometry) dump.now object n) }
{
    let g = geometry_at(geometry);
    place_answer(
        g,
        dump.len(),
        chunk(dump, g, ObjectId(object), ChunkNumber(n)),
    )
}

// The ids of the live objects, written to words in ascending order. Words past them stay, and a refusal writes nothing.
pub fn lohenarr_dump_list(dump: &[u8], geometry: Geometry, words: &mut [u32]) -> ListAnswer
    ensures value { result ≡ list_answer (list_on (geometry_at geometry) dump.now (length words.old)) }
    ensures words_after { words.new ≡ words_by (live_on (geometry_at geometry) dump.now) words.old (list_on (geometry_at geometry) dump.now (length words.old)) }
{
    list(dump, geometry_at(geometry), words).into()
}

// How many objects are live.
pub fn lohenarr_dump_live(dump: &[u8], geometry: Geometry) -> TallyAnswer
    ensures { result ≡ tally_answer (live_count_on (geometry_at geometry) dump.now) }
{
    live_count(dump, geometry_at(geometry)).into()
}

// How many objects have records.
pub fn lohenarr_dump_objects(dump: &[u8], geometry: Geometry) -> TallyAnswer
    ensures { result ≡ tally_answer (object_count_on (geometry_at geometry) dump.now) }
{
    object_count(dump, geometry_at(geometry)).into()
}
