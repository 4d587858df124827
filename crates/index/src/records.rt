// The records of an object by the index, on any cells: the pages of its chain, from the newest to the oldest.
ghost use Rattle.std.specs.Prelude.{◌≡◌, ◌≤◌, ◌<◌, length};
ghost use Rattle.page.specs.Records.{record_at};
ghost use Rattle.chunk.specs.Lists.{in_front, words_by};
ghost use Rattle.index.specs.Chains.{top};
ghost use Rattle.index.specs.Walks.{records_in, chain_of, under};
ghost use Rattle.index.specs.Recorded.{pages_of, tally_of, records_at, pages_from, records_from};

use crate::cells::{cells_for, link_of};
use crate::chains::{Step, TOP, follow};
use crate::slots::first_link;
use chunk::answer::Listed;
use page::geometry::Geometry;
use page::number::ObjectId;
use page::refusal::{Refusal, Short};

// How many records the chain of object o has from a link on, if no damaged link is met. A loop of its own, as chains.rt says of all walks.
fn tally(
    dump: &[u8],
    g: Geometry,
    pages: u32,
    cells: &[u32],
    o: ObjectId,
    first: u32,
) -> Result<u32, Refusal>
    ensures { result ≡ tally_of (under (record_at g dump.now) pages cells.now o.0 top first) }
{
    let mut link = first;
    let mut bound = TOP;
    let mut count: u32 = 0;
    loop {
        match follow(dump, g, pages, o, bound, link) {
            Step::End => {
                return Ok(count);
            }
            Step::Damaged => {
                return Err(Refusal::IndexDamaged);
            }
            Step::Record(q, age, _) => {
                count += 1;
                bound = age;
                link = link_of(cells, q);
            }
        }
    }
}

// Writes the pages of the chain of object o from a link on to words that have room for them: all were counted before, since nothing is written
// where they do not fit.
fn write_pages(
    dump: &[u8],
    g: Geometry,
    pages: u32,
    cells: &[u32],
    o: ObjectId,
    first: u32,
    words: &mut [u32],
)
    requires { records_in (under (record_at g dump.now) pages cells.now o.0 top first) ≤ length words.old }
    ensures { words.new ≡ in_front (pages_of (under (record_at g dump.now) pages cells.now o.0 top first)) words.old }
{
    let mut link = first;
    let mut bound = TOP;
    let mut count: usize = 0;
    loop {
        match follow(dump, g, pages, o, bound, link) {
            Step::End | Step::Damaged => {
                return;
            }
            Step::Record(q, age, _) => {
                words[count] = q.0;
                count += 1;
                bound = age;
                link = link_of(cells, q);
            }
        }
    }
}

// Lists the records of object o of a dump of so many pages.
#[tactic(auto, using(crate::proofs::Slot::Search::first_link_lem, crate::proofs::Walk::Recorded::pages_length, crate::proofs::Walk::Recorded::tally_counted), unfolding(chunk::specs::Lists::listed_by, chunk::specs::Lists::words_by, crate::specs::Recorded::records_at, crate::specs::Recorded::records_by, crate::specs::Chains::chain))]
fn records_in(
    dump: &[u8],
    g: Geometry,
    pages: u32,
    cells: &[u32],
    o: ObjectId,
    words: &mut [u32],
) -> Listed
    requires { 0 < pages }
    ensures value { result ≡ records_at (record_at g dump.now) g.layout.«data» cells.now o.0 pages (length words.old) }
    ensures words_after { words.new ≡ words_by (pages_of (chain_of (record_at g dump.now) g.layout.«data» cells.now o.0 pages)) words.old result }
{
    if cells.len() < cells_for(pages) {
        return Err(Refusal::ShortIndex.into());
    }
    if o.is_bad() {
        return Err(Refusal::BadObject.into());
    }
    let first = first_link(cells, o, pages);
    let need = tally(dump, g, pages, cells, o, first)?;
    if need == 0 {
        return Err(Refusal::NoObject.into());
    }
    if words.len() < (need as usize) {
        return Err(Short {
            refusal: Refusal::ShortBuffer,
            need,
        });
    }
    write_pages(dump, g, pages, cells, o, first, words);
    Ok(need)
}

// Lists the records of object o of a dump, by its index: their pages, from the newest to the oldest, are written to the words, if they all fit.
#[tactic(auto, using(page::proofs::Lengths::opened_some), unfolding(crate::specs::Recorded::records_from, crate::specs::Recorded::pages_from, chunk::specs::Lists::words_by))]
pub fn records(dump: &[u8], g: Geometry, cells: &[u32], o: ObjectId, words: &mut [u32]) -> Listed
    ensures value { result ≡ records_from g dump.now cells.now o.0 (length words.old) }
    ensures words_after { words.new ≡ words_by (pages_from g dump.now cells.now o.0) words.old result }
{
    let pages = g.opened(dump.len())?;
    records_in(dump, g, pages, cells, o, words)
}
