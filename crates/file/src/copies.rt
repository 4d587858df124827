// The copies that a file shows: for each chunk that has one, the page that holds it and how many bytes of that are valid. Holes take no room, so
// that the cost goes by the object's records, and not by the size that its header claims.
ghost use Rattle.std.specs.Prelude.{map, ◌≡◌, ◌+◌, ◌/◌, ◌≤◌, ◌<◌, length, take};
ghost use Rattle.page.specs.Records.{record_at};
ghost use Rattle.page.specs.Lengths.{opened_of};
ghost use Rattle.page.specs.Numbers.{page_values};
ghost use Rattle.page.specs.declared.record.Record.TheVariants as said;
ghost use Rattle.sort.specs.Packed.{value_of};
ghost use Rattle.sort.specs.Arranged.{Every};
ghost use Rattle.index.specs.Chains.{top};
ghost use Rattle.index.specs.Walks.{under};
ghost use Rattle.index.specs.Recorded.{is_broken};
ghost use Rattle.file.specs.Copies.{packed_copy, chunk_values, valid_values, Fits, put_copy, put_from, room_for, met_of, met_ahead, copies_ahead, keys_sorted, gathered, padded, copied_from, rows_from};

use crate::answer::Copies;
use crate::copy::Copy;
use crate::shows::{is_met, valid_in};
use crate::table::{chunks_in, words_of};
use chunk::answer::Visited;
use chunk::cut::Cut;
use index::cells::link_of;
use index::chains::{Role, Step, TOP, follow};
use index::lookups::size;
use index::slots::first_link;
use index::walks::cut_past;
use page::geometry::Geometry;
use page::number::{ObjectId, PageNumber};
use page::record::Data;
use page::refusal::{Refusal, Short};
use sort::keys::sort;
use sort::rows::{key_of, pack, value_of};

// The copies of a file; or a refusal, with the words that ShortBuffer needs.
pub type Copied = Result<Copies, Short<u32>>;

// How many copies a walk down a chain met, and whether the chain ends at a damaged link. No Result: the copies are wanted either way.
#[derive(Clone, Copy)]
struct Walked {
    copies: u32,
    broken: bool,
}

// Puts copy i: the key that sorts it into the front half of the words, and its row into the other; where there is no room, nothing. Keys come from the
// back on: a file that was written in order is met from its last chunk on, and keys in order need no sorting.
fn put(rows: &mut [u64], i: u32, x: Copy)
    requires { Fits x }
    ensures { rows.new ≡ put_copy (length rows.old / 2) rows.old i x }
{
    let n = rows.len() / 2;
    let at = i as usize;
    if at < n {
        rows[n - 1 - at] = pack(x.chunk, i);
        rows[n + at] = x.packed();
    }
}

// Puts page q, of this data, as copy i, if it is met as one. Answers how many copies are met with it.
#[tactic(auto, using(crate::proofs::IsMet::met_in_lem, crate::proofs::Meeting::valid_most), unfolding(crate::specs::Copies::put_from))]
pub(crate) fn meet(
    rows: &mut [u64],
    i: u32,
    chunks: u32,
    data: u32,
    size: u64,
    cut: Cut,
    q: PageNumber,
    d: Data,
) -> u32
    requires i_lt_page_values { i < page_values }
    requires chunks_lt_chunk_values { chunks < chunk_values }
    requires data_lt_valid_values { «data» < valid_values }
    requires q_lt_page_values { q.0 < page_values }
    ensures value { result ≡ i + length (met_of «data» chunks size cut q.0 (said.Data d)) }
    ensures rows_after { rows.new ≡ put_from (length rows.old / 2) rows.old i (met_of «data» chunks size cut q.0 (said.Data d)) }
{
    if !is_met(chunks, data, cut, d) {
        return i;
    }
    let x = Copy {
        chunk: d.chunk.0,
        page: q.0,
        valid: valid_in(data, size, cut, d),
    };
    put(rows, i, x);
    i + 1
}

// Walks down the chain of object o from a link, and puts the first copies that are met, as many as there is room for. Along a list (along.rt) there is no
// link to follow and no damage to meet: the two loops share their steps, and one for both would be no plainer.
#[tactic(auto, using(crate::proofs::Chunks::data_some))]
fn walk(
    dump: &[u8],
    g: Geometry,
    pages: u32,
    cells: &[u32],
    o: ObjectId,
    first: u32,
    size: u64,
    rows: &mut [u64],
) -> Walked
    requires { opened_of g (length dump.now) ≡ Ok pages }
    ensures copies_value { result.copies ≡ length (met_ahead (record_at g dump.now) g.layout.«data» size pages cells.now o.0 first) }
    ensures broken_value { result.broken ≡ is_broken (under (record_at g dump.now) pages cells.now o.0 top first) }
    ensures copies_le_pages { result.copies ≤ pages }
    ensures rows_after { rows.new ≡ put_from (length rows.old / 2) rows.old 0 (met_ahead (record_at g dump.now) g.layout.«data» size pages cells.now o.0 first) }
{
    let chunks = chunks_in(g.layout.data, size);
    let mut link = first;
    let mut bound = TOP;
    let mut cut = None;
    let mut newest = true;
    let mut copies: u32 = 0;
    loop {
        match follow(dump, g, pages, o, bound, link) {
            Step::End => {
                return Walked {
                    copies,
                    broken: false,
                };
            }
            Step::Damaged => {
                return Walked {
                    copies,
                    broken: true,
                };
            }
            Step::Record(q, age, role) => {
                bound = age;
                link = link_of(cells, q);
                match role {
                    Role::Header => {
                        cut = cut_past(dump, g, q, newest, cut);
                        newest = false;
                    }
                    Role::Data(d) => {
                        copies = meet(rows, copies, chunks, g.layout.data, size, cut, q, d);
                    }
                }
            }
        }
    }
}

// Of keys in the front half of the words and rows in the other, keeps the row of each chunk's first key, ascending, and clears the rest. Answers how many
// rows are kept. Keys and rows are in one slice, since the rows that are kept go where the keys were, in words that the caller lends.
pub(crate) fn gather(rows: &mut [u64]) -> usize
    requires { Every (λ k. value_of k < length rows.old / 2) (take (length rows.old / 2) (keys_sorted rows.old)) }
    ensures value { result ≡ length (gathered rows.old) }
    ensures upper_bound { result ≤ length rows.old / 2 }
    ensures rows_after { rows.new ≡ padded (gathered rows.old) (length rows.old) }
{
    let n = rows.len() / 2;
    sort(rows, n);
    let mut last = 0;
    let mut m = 0;
    for i in 0..n {
        let key = rows[i];
        let chunk = key_of(key);
        if chunk != last {
            rows[m] = rows[n + value_of(key) as usize];
            m += 1;
        }
        last = chunk;
    }
    rows[m..].fill(0);
    m
}

// Fills words with the copies of a file of this size, whose object is o, by its chain from a link, if there is a key and a row for each copy that is met.
fn fill(
    dump: &[u8],
    g: Geometry,
    pages: u32,
    cells: &[u32],
    o: ObjectId,
    first: u32,
    size: u64,
    rows: &mut [u64],
) -> u32
    requires dump_value { opened_of g (length dump.now) ≡ Ok pages }
    requires rows_length { length rows.old ≡ room_for (length (met_ahead (record_at g dump.now) g.layout.«data» size pages cells.now o.0 first)) }
    ensures value { result ≡ length (copies_ahead (record_at g dump.now) g.layout.«data» size pages cells.now o.0 first) }
    ensures rows_after { rows.new ≡ padded (map packed_copy (copies_ahead (record_at g dump.now) g.layout.«data» size pages cells.now o.0 first)) (length rows.old) }
{
    walk(dump, g, pages, cells, o, first, size, rows);
    gather(rows) as u32
}

// Fills rows with the copies of object o of a dump of so many pages.
#[tactic(auto, using(crate::proofs::Chunks::data_some, page::proofs::Lengths::opened_pages), unfolding(crate::specs::Copies::copied_from, crate::specs::Copies::copied_by, crate::specs::Copies::rows_from, crate::specs::Copies::rows_by))]
fn copies_in(
    dump: &[u8],
    g: Geometry,
    pages: u32,
    cells: &[u32],
    o: ObjectId,
    rows: &mut [u64],
) -> Copied
    requires { opened_of g (length dump.now) ≡ Ok pages }
    ensures value { result ≡ copied_from g dump.now cells.now o.0 (length rows.old) }
    ensures rows_after { rows.new ≡ rows_from g dump.now cells.now o.0 rows.old result }
{
    let Visited { answer: size, .. } = size(dump, g, cells, o).map_err(|refused| refused.answer)?;
    let first = first_link(cells, o, pages);
    // a walk without room only counts
    let w = walk(dump, g, pages, cells, o, first, size, &mut []);
    let room = words_of(w.copies as usize);
    if rows.len() < room {
        return Err(Short {
            refusal: Refusal::ShortBuffer,
            need: room as u32,
        });
    }
    let count = fill(dump, g, pages, cells, o, first, size, &mut rows[..room]);
    Ok(Copies {
        size,
        count,
        damaged: w.broken && count < chunks_in(g.layout.data, size),
    })
}

// Fills rows with the copies that object o of a dump shows, by its index, if there is room for all that the object has: ascending by chunk, each
// with the page and the valid length that the lookup of its chunk answers.
#[tactic(auto, unfolding(crate::specs::Copies::copied_from, crate::specs::Copies::copied_by, crate::specs::Copies::rows_from, crate::specs::Copies::rows_by))]
pub fn copies(dump: &[u8], g: Geometry, cells: &[u32], o: ObjectId, rows: &mut [u64]) -> Copied
    ensures value { result ≡ copied_from g dump.now cells.now o.0 (length rows.old) }
    ensures rows_after { rows.new ≡ rows_from g dump.now cells.now o.0 rows.old result }
{
    let pages = g.opened(dump.len())?;
    copies_in(dump, g, pages, cells, o, rows)
}
