// The copies that a file shows, by a list of its object's records in place of a chain: words of which each has a page as its value, the newest record
// first.
ghost use Rattle.std.specs.Prelude.{map, ◌≡◌, ◌/◌, ◌≤◌, ◌<◌, length};
ghost use Rattle.page.specs.Records.{record_at};
ghost use Rattle.page.specs.Lengths.{opened_of};
ghost use Rattle.page.specs.Numbers.{page_values};
ghost use Rattle.sort.specs.Packed.{value_of};
ghost use Rattle.sort.specs.Room.{in_room};
ghost use Rattle.file.specs.Along.{copies_along, met_on, met_along, along_on, along_left};
ghost use Rattle.file.specs.Copies.{packed_copy, put_from, room_for};

use crate::copies::{gather, meet};
use crate::table::{chunks_in, words_of};
use index::walks::lower_cut;
use page::geometry::Geometry;
use page::number::{PAGE_VALUES, PageNumber};
use page::record::{Record, record_at};
use page::refusal::{Refusal, Short};
use sort::rows::value_of;

// How many rows the copies are; or a refusal, with the words that ShortBuffer needs.
pub type Along = Result<u32, Short<u32>>;

// Walks along the records of a file of this size, and puts the first copies that are met, as many as there is room for. Answers how many are met.
#[tactic(auto, using(crate::proofs::Chunks::data_some))]
fn walk_along(
    dump: &[u8],
    g: Geometry,
    pages: u32,
    list: &[u64],
    size: u64,
    rows: &mut [u64],
) -> u32
    requires dump_value { opened_of g (length dump.now) ≡ Ok pages }
    requires list_len_bound { length list.now < page_values }
    ensures value { result ≡ length (met_on (record_at g dump.now) g.layout.«data» size (map value_of list.now)) }
    ensures upper_bound { result ≤ length list.now }
    ensures rows_after { rows.new ≡ put_from (length rows.old / 2) rows.old 0 (met_on (record_at g dump.now) g.layout.«data» size (map value_of list.now)) }
{
    let chunks = chunks_in(g.layout.data, size);
    let mut cut = None;
    let mut newest = true;
    let mut copies: u32 = 0;
    for &word in list {
        let q = PageNumber(value_of(word));
        let r = record_at(dump, g, q);
        match r {
            Record::Other => {}
            Record::Header(_) => {
                cut = lower_cut(newest, r, cut);
                newest = false;
            }
            Record::Data(d) => {
                copies = meet(rows, copies, chunks, g.layout.data, size, cut, q, d);
            }
        }
    }
    copies
}

// Fills rows, which have room, with the copies of a file of this size whose records are these. A first walk counts those that are met, older ones of a
// chunk too. Answers how many rows there are.
fn lay_along(dump: &[u8], g: Geometry, pages: u32, list: &[u64], size: u64, rows: &mut [u64]) -> u32
    requires dump_value { opened_of g (length dump.now) ≡ Ok pages }
    requires list_len_bound { length list.now < page_values }
    requires list_in_bounds { room_for (length list.now) ≤ length rows.old }
    ensures value { result ≡ length (copies_along (record_at g dump.now) g.layout.«data» size (map value_of list.now)) }
    ensures upper_bound { result ≤ length list.now }
    ensures rows_after { rows.new ≡ in_room (map packed_copy (copies_along (record_at g dump.now) g.layout.«data» size (map value_of list.now))) (room_for (met_along (record_at g dump.now) g.layout.«data» size (map value_of list.now))) rows.old }
{
    // a walk without room only counts
    let n = walk_along(dump, g, pages, list, size, &mut []) as usize;
    let rows = &mut rows[..words_of(n)];
    walk_along(dump, g, pages, list, size, rows);
    gather(rows) as u32
}

// Fills rows with the copies of a file of this size whose records are these, ascending by chunk, each with its page and its valid length, if there are
// two words for each record. A list of more records than there are numbers of pages is refused.
#[tactic(auto, unfolding(crate::specs::Along::along_on, crate::specs::Along::along_left))]
pub fn copies_along(dump: &[u8], g: Geometry, list: &[u64], size: u64, rows: &mut [u64]) -> Along
    ensures value { result ≡ along_on g dump.now list.now size (length rows.old) }
    ensures rows_after { rows.new ≡ along_left g dump.now list.now size rows.old }
{
    let pages = g.opened(dump.len())?;
    if PAGE_VALUES <= list.len() as u64 {
        return Err(Refusal::BadPage.into());
    }
    let room = words_of(list.len());
    if rows.len() < room {
        return Err(Short {
            refusal: Refusal::ShortBuffer,
            need: room as u32,
        });
    }
    Ok(lay_along(dump, g, pages, list, size, rows))
}
