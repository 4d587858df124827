// Lookups of objects by the index, on any cells: down the object's chain, and no further than the answer needs.
ghost use Rattle.std.specs.Prelude.{◌≡◌, ◌+◌, ◌≤◌, ◌<◌, length};
ghost use Rattle.page.specs.Records.{record_at};
ghost use Rattle.chunk.specs.Lookups.{file_at};
ghost use Rattle.chunk.specs.Answers.{read_by, part_by, buffer_by};
ghost use Rattle.index.specs.Cells.{cells_for};
ghost use Rattle.index.specs.Chains.{top};
ghost use Rattle.index.specs.Reached.{Header};
ghost use Rattle.index.specs.Walks.{records_in, size_file, size_at, size_walk, copy_from, chunk_reached, chunk_walk, under, below, size_in, chunk_in, size_from, chunk_from};

use crate::cells::{cells_for, link_at};
use crate::chains::{Role, Step, TOP, follow};
use crate::slots::first_link;
use crate::walks::{Top, headless, reach_header, seek_below};
use chunk::answer::{Chunk, Looked, Sized, Visited};
use chunk::lookup::{file_at, shown_of, valid_of};
use chunk::read::{part_of, read_into};
use chunk::record::{base_of, count_of, end_of, file_size};
use page::geometry::Geometry;
use page::number::{ChunkNumber, ObjectId, PageNumber};
use page::record::record_at;
use page::refusal::Refusal;

// The size of the file whose newest header is page h, with the largest end of the data above it.
fn size_file(dump: &[u8], g: Geometry, h: PageNumber, end: u64, visits: u32) -> Sized
    ensures { result ≡ size_file (size_at (record_at g dump.now) h.0 end) (file_at (record_at g dump.now h.0) h.0 visits) }
{
    let r = record_at(dump, g, h);
    let Visited { answer: _, visits } = file_at(r, h, visits)?;
    Ok(Visited {
        answer: (file_size(r) as u64).max(end),
        visits,
    })
}

// The size of object o by its chain from a link. A chunk lookup reaches the header by a walk of its own: a size lookup notes no copies.
fn size_walk(dump: &[u8], g: Geometry, pages: u32, cells: &[u32], o: ObjectId, first: u32) -> Sized
    requires { cells_for pages ≤ length cells.now }
    ensures { result ≡ size_walk (record_at g dump.now) g.layout.«data» (under (record_at g dump.now) pages cells.now o.0 top first) }
{
    let mut link = first;
    let mut bound = TOP;
    let mut end: u64 = 0;
    let mut visits: u32 = 0;
    loop {
        match follow(dump, g, pages, o, bound, link) {
            Step::End => {
                return Err(headless(visits));
            }
            Step::Damaged => {
                return Err(Refusal::IndexDamaged.into());
            }
            Step::Record(q, age, role) => {
                visits += 1;
                let Role::Data(d) = role else {
                    return size_file(dump, g, q, end, visits);
                };
                bound = age;
                link = cells[link_at(q)];
                end = end_of(g.layout.data, d).max(end);
            }
        }
    }
}

// The size of object o of a dump of so many pages.
#[tactic(auto, using(crate::proofs::Slot::Search::first_link_lem), unfolding(crate::specs::Walks::size_in, crate::specs::Chains::chain))]
fn size_in(dump: &[u8], g: Geometry, pages: u32, cells: &[u32], o: ObjectId) -> Sized
    requires { 0 < pages }
    ensures { result ≡ size_in (record_at g dump.now) g.layout.«data» cells.now o.0 pages }
{
    if cells.len() < cells_for(pages) {
        return Err(Refusal::ShortIndex.into());
    }
    if o.is_bad() {
        return Err(Refusal::BadObject.into());
    }
    size_walk(dump, g, pages, cells, o, first_link(cells, o, pages))
}

// The size of object o of a dump, by its index. Opened by numbers, which travel in registers (docs/DECISIONS.md, 8.11).
#[tactic(auto, using(page::proofs::Lengths::opened_some), unfolding(crate::specs::Walks::size_from))]
pub fn size(dump: &[u8], g: Geometry, cells: &[u32], o: ObjectId) -> Sized
    ensures { result ≡ size_from g dump.now cells.now o.0 }
{
    let l = g.layout;
    let pages = Geometry::opened_of(l.data, l.spare, l.tag, g.block, dump.len())?;
    size_in(dump, g, pages, cells, o)
}

// The copy of chunk c that was met above the newest header h of object o, or else the copy below it.
#[tactic(auto, unfolding(crate::specs::Walks::copy_from))]
fn copy_from(
    dump: &[u8],
    g: Geometry,
    pages: u32,
    cells: &[u32],
    o: ObjectId,
    c: ChunkNumber,
    h: PageNumber,
    shown: u32,
    visits: u32,
    met: Option<PageNumber>,
) -> Looked
    requires { visits + records_in (below (record_at g dump.now) pages cells.now o.0 h.0) ≤ pages }
    ensures { result ≡ copy_from (record_at g dump.now) g.layout.«data» c.0 h.0 shown visits (below (record_at g dump.now) pages cells.now o.0 h.0) met }
{
    match met {
        None => seek_below(dump, g, pages, cells, o, c, h, shown, visits),
        Some(page) => {
            let count = count_of(record_at(dump, g, page));
            let valid = valid_of(count, shown, None, base_of(g.layout.data, c));
            Ok(Chunk::Copy {
                page,
                valid,
                shown,
                visits,
            })
        }
    }
}

// Chunk c of object o, whose newest header is page h, with the largest end of data and the first copy above it.
#[tactic(auto, unfolding(crate::specs::Walks::chunk_reached, crate::specs::Walks::chunk_file))]
fn chunk_file(
    dump: &[u8],
    g: Geometry,
    pages: u32,
    cells: &[u32],
    o: ObjectId,
    c: ChunkNumber,
    h: PageNumber,
    end: u64,
    met: Option<PageNumber>,
    visits: u32,
) -> Looked
    requires { visits + records_in (below (record_at g dump.now) pages cells.now o.0 h.0) ≤ pages }
    ensures { result ≡ chunk_reached (record_at g dump.now) g.layout.«data» c.0 (below (record_at g dump.now) pages cells.now o.0 h.0) (Header h end met visits) }
{
    let r = record_at(dump, g, h);
    let _ = file_at(r, h, visits)?;
    let size = (file_size(r) as u64).max(end);
    let base = base_of(g.layout.data, c);
    if size <= base {
        return Err(Visited {
            answer: Refusal::PastEnd.into(),
            visits,
        });
    }
    let shown = shown_of(g.layout.data, size, base);
    copy_from(dump, g, pages, cells, o, c, h, shown, visits, met)
}

// Chunk c of object o by its chain from a link.
#[tactic(auto, unfolding(crate::specs::Walks::chunk_walk, crate::specs::Walks::chunk_reached))]
fn chunk_walk(
    dump: &[u8],
    g: Geometry,
    pages: u32,
    cells: &[u32],
    o: ObjectId,
    c: ChunkNumber,
    first: u32,
) -> Looked
    ensures { result ≡ chunk_walk (record_at g dump.now) g.layout.«data» c.0 (under (record_at g dump.now) pages cells.now o.0 top first) }
{
    let Top {
        page,
        end,
        met,
        visits,
    } = reach_header(dump, g, pages, cells, o, c, first)?;
    chunk_file(dump, g, pages, cells, o, c, page, end, met, visits)
}

// Chunk c of object o of a dump of so many pages.
#[tactic(auto, using(crate::proofs::Slot::Search::first_link_lem), unfolding(crate::specs::Walks::chunk_in, crate::specs::Chains::chain))]
fn chunk_in(
    dump: &[u8],
    g: Geometry,
    pages: u32,
    cells: &[u32],
    o: ObjectId,
    c: ChunkNumber,
) -> Looked
    requires { 0 < pages }
    ensures { result ≡ chunk_in (record_at g dump.now) g.layout.«data» cells.now o.0 pages c.0 }
{
    if cells.len() < cells_for(pages) {
        return Err(Refusal::ShortIndex.into());
    }
    if o.is_bad() {
        return Err(Refusal::BadObject.into());
    }
    if c.is_bad() {
        return Err(Refusal::BadChunk.into());
    }
    chunk_walk(dump, g, pages, cells, o, c, first_link(cells, o, pages))
}

// Chunk c of object o of a dump, by its index. Opened by numbers too.
#[tactic(auto, using(page::proofs::Lengths::opened_some), unfolding(crate::specs::Walks::chunk_from))]
pub fn chunk(dump: &[u8], g: Geometry, cells: &[u32], o: ObjectId, c: ChunkNumber) -> Looked
    ensures { result ≡ chunk_from g dump.now cells.now o.0 c.0 }
{
    let l = g.layout;
    let pages = Geometry::opened_of(l.data, l.spare, l.tag, g.block, dump.len())?;
    chunk_in(dump, g, pages, cells, o, c)
}

// Chunk c of object o, read into a buffer, by the dump's index.
pub fn read(
    dump: &[u8],
    g: Geometry,
    cells: &[u32],
    o: ObjectId,
    c: ChunkNumber,
    buffer: &mut [u8],
) -> Looked
    ensures value { result ≡ read_by (length buffer.old) (chunk_from g dump.now cells.now o.0 c.0) }
    ensures buffer_after { buffer.new ≡ buffer_by g dump.now buffer.old result }
{
    read_into(dump, g, chunk(dump, g, cells, o, c), buffer)
}

// The valid bytes of chunk c of object o as a part of the dump, by its index.
pub fn part<'a>(dump: &'a [u8], g: Geometry, cells: &[u32], o: ObjectId, c: ChunkNumber) -> &'a [u8]
    ensures { result.now ≡ part_by g dump.now (chunk_from g dump.now cells.now o.0 c.0) }
{
    part_of(dump, g, chunk(dump, g, cells, o, c))
}
