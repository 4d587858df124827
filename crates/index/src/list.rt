// Listing the live objects and counting all objects by the index, on any cells: slot by slot, down each object's chain to its newest header.
ghost use Rattle.std.specs.Prelude.{false, ◌≡◌, ◌≤◌, ◌<◌, ◌^◌, length};
ghost use Rattle.page.specs.Search.{count};
ghost use Rattle.page.specs.Records.{record_at};
ghost use Rattle.chunk.specs.Lists.{in_front, words_by};
ghost use Rattle.index.specs.Cells.{cells_for, slots_for, InTable, keys};
ghost use Rattle.index.specs.Chains.{top};
ghost use Rattle.index.specs.Walks.{under};
ghost use Rattle.index.specs.Listing.{is_any, headed_standing, headless_standing, stands, standing_at, asked_slot, slot_ids, tally_in, list_in, objects_in, ids_from, list_from, objects_from};

use crate::cells::{cells_for, key_at, link_of, slots_for};
use crate::chains::{Role, Step, TOP, follow};
use crate::slots::{first_of, slot_of};
use chunk::answer::Listed;
use chunk::list::put_id;
use chunk::record::is_gone;
use page::geometry::Geometry;
use page::number::{ObjectId, PageNumber};
use page::record::record_at;
use page::refusal::{Refusal, Short};
use sort::words::sort;

// Which objects are asked for: the live ones, or any that has a record. Contracts name it, and two tests would be no plainer as a closure.
#[derive(Clone, Copy)]
pub enum Ask {
    Live,
    Any,
}

// How an object stands: it is asked for, a damaged link was met, or neither; three cases by name are plainer than a Result of a bool.
#[derive(Clone, Copy)]
pub enum Standing {
    Asked,
    Damaged,
    Other,
}

impl Ask {
    fn is_any(self) -> bool
        ensures { result ≡ is_any self }
    {
        matches!(self, Ask::Any)
    }
}

// How an object stands by its newest header, page q.
fn headed_standing(dump: &[u8], g: Geometry, ask: Ask, q: PageNumber) -> Standing
    ensures { result ≡ headed_standing ask (record_at g dump.now q.0) }
{
    if !ask.is_any() && is_gone(record_at(dump, g, q)) {
        return Standing::Other;
    }
    Standing::Asked
}

// How an object without a header stands, whose chain has a record or none.
fn headless_standing(ask: Ask, met: bool) -> Standing
    ensures { result ≡ headless_standing ask met }
{
    if ask.is_any() && met {
        return Standing::Asked;
    }
    Standing::Other
}

// How object o stands by its chain from a link: its newest header decides. What lookups gather on the way there is not needed here.
fn standing_from(
    dump: &[u8],
    g: Geometry,
    ask: Ask,
    pages: u32,
    cells: &[u32],
    o: ObjectId,
    first: u32,
) -> Standing
    ensures { result ≡ stands ask (record_at g dump.now) false (under (record_at g dump.now) pages cells.now o.0 top first) }
{
    let mut link = first;
    let mut bound = TOP;
    let mut met = false;
    loop {
        match follow(dump, g, pages, o, bound, link) {
            Step::End => {
                return headless_standing(ask, met);
            }
            Step::Damaged => {
                return Standing::Damaged;
            }
            Step::Record(q, age, role) => {
                let Role::Data(_) = role else {
                    return headed_standing(dump, g, ask, q);
                };
                met = true;
                bound = age;
                link = link_of(cells, q);
            }
        }
    }
}

// The key of slot s.
#[tactic(auto, using(crate::proofs::Slot::Words::key_room))]
fn key_of(cells: &[u32], s: usize) -> ObjectId
    requires { InTable cells.now s }
    ensures { result.0 ≡ keys cells.now s }
{
    ObjectId(cells[key_at(s)])
}

// How object o, the key of slot s, stands, if that is where it is looked for. Most slots are free: callers pass over those themselves.
#[tactic(auto, unfolding(crate::specs::Listing::standing_at, crate::specs::Chains::chain, crate::specs::Slots::first))]
fn standing_at(
    dump: &[u8],
    g: Geometry,
    ask: Ask,
    pages: u32,
    cells: &[u32],
    s: usize,
    o: ObjectId,
) -> Standing
    requires pages_nonzero { 0 < pages }
    requires pages_in_bounds { cells_for pages ≤ length cells.now }
    requires in_table { InTable cells.now s }
    requires o_value { o.0 ≡ keys cells.now s }
    requires o_nonzero { 0 < o.0 }
    ensures { result ≡ standing_at ask (record_at g dump.now) g.layout.«data» cells.now pages s }
{
    if slot_of(cells, o, pages) != s {
        return Standing::Other;
    }
    let first = first_of(cells, o, s);
    standing_from(dump, g, ask, pages, cells, o, first)
}

// How many slots have objects that are asked for, if no damaged link is met.
#[tactic(auto, using(crate::proofs::Slot::Words::slot_in, crate::proofs::Slot::Words::slots_pages, page::proofs::Searching::count_none))]
fn tally_in(dump: &[u8], g: Geometry, ask: Ask, pages: u32, cells: &[u32]) -> Result<u32, Refusal>
    requires pages_bound { pages ≤ 2 ^ 31 }
    requires pages_in_bounds { cells_for pages ≤ length cells.now }
    ensures { result ≡ tally_in ask (record_at g dump.now) g.layout.«data» cells.now pages }
{
    let mut count: u32 = 0;
    for s in 0..slots_for(pages) {
        let o = key_of(cells, s);
        if o.0 == 0 {
            continue;
        }
        match standing_at(dump, g, ask, pages, cells, s, o) {
            Standing::Asked => {
                count += 1;
            }
            Standing::Damaged => {
                return Err(Refusal::IndexDamaged);
            }
            Standing::Other => {
                continue;
            }
        }
    }
    Ok(count)
}

// Writes the ids of the live slots, ascending, to words that have room for them: all were counted before, since nothing is written where they do
// not fit. What both walks share is how a slot stands.
#[tactic(auto, using(crate::proofs::Slot::Words::slot_in, crate::proofs::Slot::Words::slots_pages))]
fn write_ids(dump: &[u8], g: Geometry, pages: u32, cells: &[u32], words: &mut [u32])
    requires pages_in_bounds { cells_for pages ≤ length cells.now }
    requires pages_in_bounds_2 { count (asked_slot Ask.Live (record_at g dump.now) g.layout.«data» cells.now pages) (slots_for pages) ≤ length words.old }
    ensures { words.new ≡ in_front (slot_ids Ask.Live (record_at g dump.now) g.layout.«data» cells.now pages) words.old }
{
    let mut count: usize = 0;
    for s in 0..slots_for(pages) {
        let o = key_of(cells, s);
        if o.0 == 0 {
            continue;
        }
        let Standing::Asked = standing_at(dump, g, Ask::Live, pages, cells, s, o) else {
            continue;
        };
        put_id(words, count, o);
        count += 1;
    }
    sort(words, count);
}

// Lists the live objects of a dump of so many pages.
#[tactic(auto, using(crate::proofs::Answer::Listings::list_refused), unfolding(crate::specs::Listing::list_in, chunk::specs::Lists::words_by))]
fn list_in(dump: &[u8], g: Geometry, pages: u32, cells: &[u32], words: &mut [u32]) -> Listed
    requires { pages ≤ 2 ^ 31 }
    ensures value { result ≡ list_in (record_at g dump.now) g.layout.«data» cells.now pages (length words.old) }
    ensures words_after { words.new ≡ words_by (slot_ids Ask.Live (record_at g dump.now) g.layout.«data» cells.now pages) words.old result }
{
    if cells.len() < cells_for(pages) {
        return Err(Refusal::ShortIndex.into());
    }
    let need = tally_in(dump, g, Ask::Live, pages, cells)?;
    if words.len() < (need as usize) {
        return Err(Short {
            refusal: Refusal::ShortBuffer,
            need,
        });
    }
    write_ids(dump, g, pages, cells, words);
    Ok(need)
}

// Lists the live objects of a dump, by its index: their ids, ascending, are written to the words, if they all
// fit.
#[tactic(auto, using(page::proofs::Lengths::opened_most), unfolding(crate::specs::Listing::list_from, crate::specs::Listing::ids_from, chunk::specs::Lists::words_by))]
pub fn list(dump: &[u8], g: Geometry, cells: &[u32], words: &mut [u32]) -> Listed
    ensures value { result ≡ list_from g dump.now cells.now (length words.old) }
    ensures words_after { words.new ≡ words_by (ids_from g dump.now cells.now) words.old result }
{
    let pages = g.opened(dump.len())?;
    list_in(dump, g, pages, cells, words)
}

// Counts the objects of a dump of so many pages.
#[tactic(auto, unfolding(crate::specs::Listing::objects_in))]
fn objects_in(dump: &[u8], g: Geometry, pages: u32, cells: &[u32]) -> Result<u32, Refusal>
    requires { pages ≤ 2 ^ 31 }
    ensures { result ≡ objects_in (record_at g dump.now) g.layout.«data» cells.now pages }
{
    if cells.len() < cells_for(pages) {
        return Err(Refusal::ShortIndex);
    }
    tally_in(dump, g, Ask::Any, pages, cells)
}

// How many objects a dump has, by its index: those with data records only too.
#[tactic(auto, using(page::proofs::Lengths::opened_most), unfolding(crate::specs::Listing::objects_from))]
pub fn objects(dump: &[u8], g: Geometry, cells: &[u32]) -> Result<u32, Refusal>
    ensures { result ≡ objects_from g dump.now cells.now }
{
    let pages = g.opened(dump.len())?;
    objects_in(dump, g, pages, cells)
}
