// Starting an index in lent words, adding pages to it, and what it answers: lookups of an object, a file's table, its copies, the live list, the
// number of objects.
ghost use Rattle.std.specs.Prelude.{◌≡◌, length, take, drop};
ghost use Rattle.capi.specs.Layouts.{geometry_at};
ghost use Rattle.chunk.specs.Answers.{read_by, buffer_by, part_by};
ghost use Rattle.chunk.specs.Lists.{words_by};
ghost use Rattle.index.specs.Additions.{start_of, add_of};
ghost use Rattle.index.specs.Recorded.{pages_from, records_from};
ghost use Rattle.index.specs.Runs.{run_of, older_of};
ghost use Rattle.index.specs.Cells.{cells_for};
ghost use Rattle.index.specs.Listing.{list_from, ids_from, objects_from};
ghost use Rattle.index.specs.Walks.{size_from, chunk_from};
ghost use Rattle.file.specs.Copies.{copy_of, copied_from, rows_from};
ghost use Rattle.file.specs.Table.{row_part, table_from, filled_by};
ghost use Rattle.capi.specs.Lookups.{size_answer, chunk_answer, place_answer, row_place, list_answer, tally_answer, table_answer, copies_answer, copy_answer, added_answer, run_answer};

use crate::answer::{
    ChunkAnswer, CopiesAnswer, CopyAnswer, ListAnswer, PlaceAnswer, RunAnswer, SizeAnswer,
    TableAnswer, TallyAnswer, added_answer, place_answer, place_of,
};
use crate::layout::{Geometry, geometry_at};
use file::copies::copies;
use file::copy::Copy;
use file::table::table;
use index::additions::{add, start};
use index::cells::cells_for;
use index::list::{list, objects};
use index::lookups::{chunk, read, size};
use index::records::records;
use index::runs::{add_older, add_run};
use page::number::{ChunkNumber, ObjectId, PageNumber};

// How many words an index of so many pages has.
pub fn lohenarr_cells(pages: u32) -> usize
    ensures { result ≡ cells_for pages }
{
    cells_for(pages)
}

// Makes the index empty, whatever its words held. The seed is any word; no answer depends on it.
pub fn lohenarr_start(dump: &[u8], geometry: Geometry, cells: &mut [u32], seed: u32) -> u32
    ensures value { result ≡ added_answer (start_of (geometry_at geometry) dump.now cells.old seed).answer }
    ensures cells_after { cells.new ≡ (start_of (geometry_at geometry) dump.now cells.old seed).cells }
{
    added_answer(start(dump, geometry_at(geometry), cells, seed))
}

// Adds a page to the index.
pub fn lohenarr_add(dump: &[u8], geometry: Geometry, cells: &mut [u32], page: u32) -> u32
    ensures value { result ≡ added_answer (add_of (geometry_at geometry) dump.now cells.old page).answer }
    ensures cells_after { cells.new ≡ (add_of (geometry_at geometry) dump.now cells.old page).cells }
{
    added_answer(add(dump, geometry_at(geometry), cells, PageNumber(page)))
}

// Adds the pages from one to before another to the index, one after the other, until one is refused; those before it stand.
pub fn lohenarr_add_run(
    dump: &[u8],
    geometry: Geometry,
    cells: &mut [u32],
    from: u32,
    to: u32,
) -> RunAnswer
    ensures value { result ≡ run_answer (run_of (geometry_at geometry) dump.now cells.old from to).answer }
    ensures cells_after { cells.new ≡ (run_of (geometry_at geometry) dump.now cells.old from to).cells }
{
    add_run(
        dump,
        geometry_at(geometry),
        cells,
        PageNumber(from),
        PageNumber(to),
    )
    .into()
}

// Adds of the pages from one to before another the records that are older than a given one to the index, one after the other, until one is
// refused; those before it stand.
pub fn lohenarr_add_older(
    dump: &[u8],
    geometry: Geometry,
    cells: &mut [u32],
    from: u32,
    to: u32,
    before: u32,
) -> RunAnswer
    ensures value { result ≡ run_answer (older_of (geometry_at geometry) dump.now cells.old from to before).answer }
    ensures cells_after { cells.new ≡ (older_of (geometry_at geometry) dump.now cells.old from to before).cells }
{
    add_older(
        dump,
        geometry_at(geometry),
        cells,
        PageNumber(from),
        PageNumber(to),
        PageNumber(before),
    )
    .into()
}

// The size of an object.
pub fn lohenarr_size(dump: &[u8], geometry: Geometry, cells: &[u32], object: u32) -> SizeAnswer
    ensures { result ≡ size_answer (size_from (geometry_at geometry) dump.now cells.now object) }
{
    size(dump, geometry_at(geometry), cells, ObjectId(object)).into()
}

// A chunk of an object.
pub fn lohenarr_chunk(
    dump: &[u8],
    geometry: Geometry,
    cells: &[u32],
    object: u32,
    n: u32,
) -> ChunkAnswer
    ensures { result ≡ chunk_answer (chunk_from (geometry_at geometry) dump.now cells.now object n) }
{
    chunk(
        dump,
        geometry_at(geometry),
        cells,
        ObjectId(object),
        ChunkNumber(n),
    )
    .into()
}

// A chunk of an object, read into a buffer: the valid bytes, then zeros up to the shown length. Bytes past that stay, and a refusal writes
// nothing.
pub fn lohenarr_read(
    dump: &[u8],
    geometry: Geometry,
    cells: &[u32],
    object: u32,
    n: u32,
    buffer: &mut [u8],
) -> ChunkAnswer
    ensures value { result ≡ chunk_answer (read_by (length buffer.old) (chunk_from (geometry_at geometry) dump.now cells.now object n)) }
    ensures buffer_after { buffer.new ≡ buffer_by (geometry_at geometry) dump.now buffer.old (read_by (length buffer.old) (chunk_from (geometry_at geometry) dump.now cells.now object n)) }
{
    read(
        dump,
        geometry_at(geometry),
        cells,
        ObjectId(object),
        ChunkNumber(n),
        buffer,
    )
    .into()
}

// The valid bytes of a chunk of an object, as a part of the dump; an empty part for a hole or a refusal.
pub fn lohenarr_part(
    dump: &[u8],
    geometry: Geometry,
    cells: &[u32],
    object: u32,
    n: u32,
) -> PlaceAnswer
    ensures value { result ≡ place_answer (geometry_at geometry) (length dump.now) (chunk_from (geometry_at geometry) dump.now cells.now object n) }
    ensures dump_value { take result.length (drop result.offset dump.now) ≡ part_by (geometry_at geometry) dump.now (chunk_from (geometry_at geometry) dump.now cells.now object n) }
{
    let g = geometry_at(geometry);
    place_answer(
        g,
        dump.len(),
        chunk(dump, g, cells, ObjectId(object), ChunkNumber(n)),
    )
}

// The ids of the live objects, written to words in ascending order. Words past them stay, and a refusal writes nothing.
pub fn lohenarr_list(
    dump: &[u8],
    geometry: Geometry,
    cells: &[u32],
    words: &mut [u32],
) -> ListAnswer
    ensures value { result ≡ list_answer (list_from (geometry_at geometry) dump.now cells.now (length words.old)) }
    ensures words_after { words.new ≡ words_by (ids_from (geometry_at geometry) dump.now cells.now) words.old (list_from (geometry_at geometry) dump.now cells.now (length words.old)) }
{
    list(dump, geometry_at(geometry), cells, words).into()
}

// The pages of the records of an object, written to words from the newest to the oldest. Words past them stay, and a refusal writes nothing.
pub fn lohenarr_records(
    dump: &[u8],
    geometry: Geometry,
    cells: &[u32],
    object: u32,
    words: &mut [u32],
) -> ListAnswer
    ensures value { result ≡ list_answer (records_from (geometry_at geometry) dump.now cells.now object (length words.old)) }
    ensures words_after { words.new ≡ words_by (pages_from (geometry_at geometry) dump.now cells.now object) words.old (records_from (geometry_at geometry) dump.now cells.now object (length words.old)) }
{
    records(dump, geometry_at(geometry), cells, ObjectId(object), words).into()
}

// How many objects have an added record.
pub fn lohenarr_objects(dump: &[u8], geometry: Geometry, cells: &[u32]) -> TallyAnswer
    ensures { result ≡ tally_answer (objects_from (geometry_at geometry) dump.now cells.now) }
{
    objects(dump, geometry_at(geometry), cells).into()
}

// The chunks of a file, written to a table of two words for each: where its copy is, 0 for a hole, 1 where a link of the index is damaged
// before a copy, and the page and 2 else; and how many of its bytes are valid. Words past the rows stay, and a refusal writes nothing.
pub fn lohenarr_table(
    dump: &[u8],
    geometry: Geometry,
    cells: &[u32],
    object: u32,
    words: &mut [u32],
) -> TableAnswer
    ensures value { result ≡ table_answer (table_from (geometry_at geometry) dump.now cells.now object (length words.old)) }
    ensures words_after { words.new ≡ filled_by (chunk_from (geometry_at geometry) dump.now cells.now object) words.old (table_from (geometry_at geometry) dump.now cells.now object (length words.old)) }
{
    table(dump, geometry_at(geometry), cells, ObjectId(object), words).into()
}

// The valid bytes of the copy that a row of a table names, as a part of the dump; an empty part where it names none.
pub fn lohenarr_row(dump: &[u8], geometry: Geometry, place: u32, valid: u32) -> PlaceAnswer
    ensures value { result ≡ row_place (geometry_at geometry) (length dump.now) place valid }
    ensures dump_value { take result.length (drop result.offset dump.now) ≡ row_part (geometry_at geometry) dump.now place valid }
{
    if place < 2 {
        return PlaceAnswer::default();
    }
    place_of(
        geometry_at(geometry),
        dump.len(),
        PageNumber(place - 2),
        valid,
    )
}

// The copies that a file shows, a row of one number for each, ascending by chunk; holes have no row. The rest of the words that were needed is
// cleared, words past those stay, and a refusal writes nothing.
pub fn lohenarr_copies(
    dump: &[u8],
    geometry: Geometry,
    cells: &[u32],
    object: u32,
    rows: &mut [u64],
) -> CopiesAnswer
    ensures value { result ≡ copies_answer (copied_from (geometry_at geometry) dump.now cells.now object (length rows.old)) }
    ensures rows_after { rows.new ≡ rows_from (geometry_at geometry) dump.now cells.now object rows.old (copied_from (geometry_at geometry) dump.now cells.now object (length rows.old)) }
{
    copies(dump, geometry_at(geometry), cells, ObjectId(object), rows).into()
}

// The copy that a row of copies tells.
pub fn lohenarr_copy(row: u64) -> CopyAnswer
    ensures { result ≡ copy_answer (copy_of row) }
{
    Copy::of(row).into()
}
