// The live objects of a dump alone: their list, how many they are, and how many objects there are.
ghost use Rattle.std.specs.Prelude.{◌≡◌, not, ◌&&◌, ◌≤◌, length, set};
ghost use Rattle.page.specs.Records.{record_at};
ghost use Rattle.chunk.specs.Records.{gone_under};
ghost use Rattle.chunk.specs.Newest.{newest_header};
ghost use Rattle.chunk.specs.Live.{is_at, object_count, live_ids, live_count};
ghost use Rattle.chunk.specs.Lists.{in_front, listed_by, words_by, list_on, live_on, live_count_on, object_count_on};

use crate::answer::Listed;
use crate::record::{Want, gone_under, object_of};
use crate::scan::{newest_page, records_since};
use crate::takes::Takes;
use page::geometry::Geometry;
use page::number::{ObjectId, PageNumber};
use page::record::{Header, Record, record_at};
use page::refusal::{Refusal, Short};
use sort::words::sort;

// Whether page n, which is this header, is its object's newest, and its parent neither 3 nor 4, which is asked first, since the other goes over the dump.
#[tactic(auto, using(crate::proofs::Tests::cases))]
fn is_live(dump: &[u8], g: Geometry, pages: u32, n: PageNumber, h: Header) -> bool
    ensures { result ≡ (not (gone_under h.parent.0) && is_at n.0 (newest_header (record_at g dump.now) h.object.0 pages)) }
{
    if gone_under(h.parent) {
        return false;
    }
    match newest_page(dump, g, Takes::Every, pages, h.object, Want::Header) {
        None => false,
        Some(newest) => newest.page == n,
    }
}

// How many objects of a dump of so many pages are live.
fn live_in(dump: &[u8], g: Geometry, pages: u32) -> u32
    ensures { result ≡ live_count (record_at g dump.now) pages }
{
    let mut count: u32 = 0;
    for i in 0..pages {
        let n = PageNumber(i);
        let Record::Header(h) = record_at(dump, g, n) else {
            continue;
        };
        if is_live(dump, g, pages, n, h) {
            count += 1;
        }
    }
    count
}

// Writes an id at a place, if the words have it.
#[tactic(auto, using(crate::proofs::Tests::cases))]
pub fn put_id(words: &mut [u32], at: usize, o: ObjectId)
    ensures { words.new ≡ set words.old at o.0 }
{
    if at < words.len() {
        words[at] = o.0;
    }
}

// Writes the ids of the live objects, ascending, to words that have room for them. All were counted before, by a loop that is alike: nothing is written where
// they do not fit.
fn write_live(dump: &[u8], g: Geometry, pages: u32, words: &mut [u32])
    requires { live_count (record_at g dump.now) pages ≤ length words.old }
    ensures { words.new ≡ in_front (live_ids (record_at g dump.now) pages) words.old }
{
    let mut count: usize = 0;
    for i in 0..pages {
        let n = PageNumber(i);
        let Record::Header(h) = record_at(dump, g, n) else {
            continue;
        };
        if is_live(dump, g, pages, n, h) {
            put_id(words, count, h.object);
            count += 1;
        }
    }
    sort(words, count);
}

// Lists the live objects of a dump of so many pages.
fn list_in(dump: &[u8], g: Geometry, pages: u32, words: &mut [u32]) -> Listed
    ensures value { result ≡ listed_by (length words.old) (live_ids (record_at g dump.now) pages) }
    ensures words_after { words.new ≡ words_by (live_ids (record_at g dump.now) pages) words.old result }
{
    let need = live_in(dump, g, pages);
    if words.len() < (need as usize) {
        return Err(Short {
            refusal: Refusal::ShortBuffer,
            need,
        });
    }
    write_live(dump, g, pages, words);
    Ok(need)
}

// Lists the live objects: their ids, ascending, are written to the words, if they all fit.
#[tactic(auto, using(crate::proofs::Tests::cases), unfolding(crate::specs::Lists::list_on, crate::specs::Lists::words_by, crate::specs::Lists::live_on))]
pub fn list(dump: &[u8], g: Geometry, words: &mut [u32]) -> Listed
    ensures value { result ≡ list_on g dump.now (length words.old) }
    ensures words_after { words.new ≡ words_by (live_on g dump.now) words.old result }
{
    let pages = g.opened(dump.len())?;
    list_in(dump, g, pages, words)
}

// How many objects are live.
#[tactic(auto, using(crate::proofs::Tests::cases), unfolding(crate::specs::Lists::live_count_on))]
pub fn live_count(dump: &[u8], g: Geometry) -> Result<u32, Refusal>
    ensures { result ≡ live_count_on g dump.now }
{
    let pages = g.opened(dump.len())?;
    Ok(live_in(dump, g, pages))
}

// How many objects have records in a dump of so many pages.
fn objects_in(dump: &[u8], g: Geometry, pages: u32) -> u32
    ensures { result ≡ object_count (record_at g dump.now) pages }
{
    let mut count: u32 = 0;
    for i in 0..pages {
        let n = PageNumber(i);
        let id = object_of(record_at(dump, g, n));
        if id != 0 && records_since(dump, g, Takes::Every, n.pages_before(), ObjectId(id), 0) == 0 {
            count += 1;
        }
    }
    count
}

// How many objects have records.
#[tactic(auto, using(crate::proofs::Tests::cases), unfolding(crate::specs::Lists::object_count_on))]
pub fn object_count(dump: &[u8], g: Geometry) -> Result<u32, Refusal>
    ensures { result ≡ object_count_on g dump.now }
{
    let pages = g.opened(dump.len())?;
    Ok(objects_in(dump, g, pages))
}
