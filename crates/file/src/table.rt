// The table of a file's chunks: for each, the page that holds its copy and how many bytes of it are valid.
ghost use Rattle.std.specs.Prelude.{◌≡◌, ◌/◌, ◌≤◌, ◌<◌, ◌^◌, length};
ghost use Rattle.page.specs.Records.{record_at};
ghost use Rattle.page.specs.Lengths.{opened_of};
ghost use Rattle.index.specs.Walks.{chunk_from};
ghost use Rattle.file.specs.Table.{words_of, chunks_in, rows, all_ahead, noted, Closed, filled_by, table_from};

use crate::answer::Table;
use crate::shows::{is_met, valid_in};
use chunk::answer::Visited;
use chunk::cut::Cut;
use index::cells::link_of;
use index::chains::{Role, Step, TOP, follow};
use index::lookups::size;
use index::slots::first_link;
use index::walks::cut_past;
use page::geometry::Geometry;
use page::number::{ChunkNumber, ObjectId, PageNumber};
use page::record::Data;
use page::refusal::{Refusal, Short};

// A table; or a refusal, with the words that ShortBuffer needs.
pub type Tabled = Result<Table, Short<u32>>;

// In the first word of a row, by the C interface: a damaged link was met before a copy.
const DAMAGED: u32 = 1;
// In the first word of a row, by the C interface: from this on page 0, page 1 and so on.
const PAGES: u32 = 2;

// How many words so many pairs of words have: the rows of a table, or the keys and rows of copies.
pub(crate) fn words_of(pairs: usize) -> usize
    requires { pairs < 2 ^ 63 }
    ensures { result ≡ words_of pairs }
{
    2 * pairs
}

// How many chunks a file of this size has, of those that have numbers.
#[tactic(auto, unfolding(crate::specs::Table::chunks_in))]
pub(crate) fn chunks_in(data: u32, size: u64) -> u32
    requires { 0 < «data» }
    ensures value { result ≡ chunks_in «data» size }
    ensures upper_bound { result < 2 ^ 20 }
{
    size.div_ceil(u64::from(data))
        .min(u64::from(ChunkNumber::MOST)) as u32
}

// Notes page q, of this data, in the row of its chunk, if it is met as a copy and nothing is noted there yet.
#[tactic(auto, using(crate::proofs::IsMet::met_in_lem), unfolding(crate::specs::Table::noted))]
fn note(table: &mut [u32], count: u32, data: u32, size: u64, cut: Cut, q: PageNumber, d: Data)
    requires count_in_bounds { words_of count ≤ length table.old }
    requires q_bound { q.0 < 2 ^ 31 }
    ensures { table.new ≡ noted table.old count «data» size cut q.0 d.chunk.0 d.count }
{
    if !is_met(count, data, cut, d) {
        return;
    }
    let i = words_of(d.chunk.chunks_before() as usize);
    if table[i] == 0 {
        table[i] = q.0 + PAGES;
        table[i + 1] = valid_in(data, size, cut, d);
    }
}

// Marks the rows in which nothing is noted as damaged.
fn mark_damaged(table: &mut [u32])
    ensures { Closed (length table.old / 2) table.old table.new }
{
    for r in 0..table.len() / 2 {
        let i = words_of(r);
        table[i] = table[i].max(DAMAGED);
    }
}

// Fills the rows of a file of this size, whose object is o, by one walk down its chain from a link. The walk that puts copies is a loop of its own: one
// for both would be generic in what it fills, and no plainer.
#[tactic(auto, using(crate::proofs::Chunks::data_some))]
fn fill(
    dump: &[u8],
    g: Geometry,
    pages: u32,
    cells: &[u32],
    o: ObjectId,
    first: u32,
    size: u64,
    table: &mut [u32],
)
    requires dump_value { opened_of g (length dump.now) ≡ Ok pages }
    requires table_length { length table.old ≡ words_of (chunks_in g.layout.«data» size) }
    ensures { table.new ≡ rows (all_ahead (record_at g dump.now) g.layout.«data» size pages cells.now o.0 first) (chunks_in g.layout.«data» size) }
{
    let count = chunks_in(g.layout.data, size);
    table.fill(0);
    let mut link = first;
    let mut bound = TOP;
    let mut cut = None;
    let mut newest = true;
    loop {
        match follow(dump, g, pages, o, bound, link) {
            Step::End => return,
            Step::Damaged => {
                mark_damaged(table);
                return;
            }
            Step::Record(q, age, role) => {
                bound = age;
                link = link_of(cells, q);
                match role {
                    Role::Header => {
                        cut = cut_past(dump, g, q, newest, cut);
                        newest = false;
                    }
                    Role::Data(d) => note(table, count, g.layout.data, size, cut, q, d),
                }
            }
        }
    }
}

// Fills a table with the rows of object o of a dump of so many pages.
#[tactic(auto, using(crate::proofs::Chunks::data_some), unfolding(crate::specs::Table::filled_by, crate::specs::Table::table_from, crate::specs::Table::table_by))]
fn table_in(
    dump: &[u8],
    g: Geometry,
    pages: u32,
    cells: &[u32],
    o: ObjectId,
    table: &mut [u32],
) -> Tabled
    requires { opened_of g (length dump.now) ≡ Ok pages }
    ensures value { result ≡ table_from g dump.now cells.now o.0 (length table.old) }
    ensures table_after { table.new ≡ filled_by (chunk_from g dump.now cells.now o.0) table.old result }
{
    let Visited { answer: size, .. } = size(dump, g, cells, o).map_err(|refused| refused.answer)?;
    let count = chunks_in(g.layout.data, size);
    let words = words_of(count as usize);
    if table.len() < words {
        return Err(Short {
            refusal: Refusal::ShortBuffer,
            need: words as u32,
        });
    }
    let first = first_link(cells, o, pages);
    fill(dump, g, pages, cells, o, first, size, &mut table[..words]);
    Ok(Table { size, rows: count })
}

// Fills a table with the rows of object o of a dump, by its index, if they all fit: for each chunk where its
// copy is and how many bytes of it are valid, as the lookup of the chunk answers.
#[tactic(auto, unfolding(crate::specs::Table::table_from, crate::specs::Table::table_by, crate::specs::Table::filled_by))]
pub fn table(dump: &[u8], g: Geometry, cells: &[u32], o: ObjectId, table: &mut [u32]) -> Tabled
    ensures value { result ≡ table_from g dump.now cells.now o.0 (length table.old) }
    ensures table_after { table.new ≡ filled_by (chunk_from g dump.now cells.now o.0) table.old result }
{
    let pages = g.opened(dump.len())?;
    table_in(dump, g, pages, cells, o, table)
}
