// Where the link to a page goes in the chain of its object, and putting the page in there.
ghost use Rattle.std.specs.Prelude.{◌≡◌, ◌<◌, ◌^◌, length};
ghost use Rattle.page.specs.Records.{record_at};
ghost use Rattle.index.specs.Cells.{InTable, word, link_at, first_at, is_marked, linked};
ghost use Rattle.index.specs.Slots.{first_in};
ghost use Rattle.index.specs.Places.{Recorded, Within, place_from};

use crate::cells::{LINKS, first_at, key_at, link_at, marked_link};
use crate::chains::{Step, TOP, follow};
use page::geometry::Geometry;
use page::number::{ObjectId, PageNumber};
use page::refusal::Refusal;

// Where the link to page p of object o and of this age goes in the chain whose first link stands at `from`: the link to the first record that
// is not newer, or the last link. A loop of its own, as chains.rt says of all walks.
fn place_from(
    dump: &[u8],
    g: Geometry,
    pages: u32,
    cells: &[u32],
    o: ObjectId,
    p: PageNumber,
    age: u64,
    from: usize,
) -> Result<usize, Refusal>
    requires recorded { Recorded (record_at g dump.now) pages cells.now o.0 p.0 age }
    requires from_in_bounds { from < length cells.now }
    ensures value { result ≡ place_from (record_at g dump.now) pages cells.now o.0 p.0 (word cells.now from) from }
    ensures within { Within (length cells.now) result }
{
    let mut at = from;
    let mut bound = TOP;
    loop {
        match follow(dump, g, pages, o, bound, cells[at]) {
            Step::End => {
                return Ok(at);
            }
            Step::Damaged => {
                return Err(Refusal::IndexDamaged);
            }
            Step::Record(q, a, _) => {
                if a <= age {
                    if q == p {
                        return Err(Refusal::AlreadyAdded);
                    }
                    return Ok(at);
                }
                bound = a;
                at = link_at(q);
            }
        }
    }
}

// Where the link to page p goes in the chain of its object o, whose slot is s; an object without a slot has an empty chain.
#[tactic(auto, using(crate::proofs::Slot::Words::key_room, crate::proofs::Chain::Place::place_end, crate::proofs::Chain::Links::trace_end), unfolding(crate::specs::Slots::first_in))]
pub(crate) fn place_of(
    dump: &[u8],
    g: Geometry,
    pages: u32,
    cells: &[u32],
    o: ObjectId,
    p: PageNumber,
    age: u64,
    s: usize,
) -> Result<usize, Refusal>
    requires recorded { Recorded (record_at g dump.now) pages cells.now o.0 p.0 age }
    requires in_table { InTable cells.now s }
    ensures value { result ≡ place_from (record_at g dump.now) pages cells.now o.0 p.0 (first_in cells.now s o.0) (first_at s) }
    ensures within { Within (length cells.now) result }
{
    let from = first_at(s);
    if cells[key_at(s)] != o.0 {
        return Ok(from);
    }
    place_from(dump, g, pages, cells, o, p, age, from)
}

// Whether page p is marked as added.
pub(crate) fn is_marked(cells: &[u32], p: PageNumber) -> bool
    requires { link_at p.0 < length cells.now }
    ensures { result ≡ is_marked cells.now p.0 }
{
    cells[link_at(p)] != 0
}

// Puts page p in at a place of the cells.
#[tactic(auto, unfolding(crate::specs::Cells::linked))]
pub(crate) fn put_link(cells: &mut [u32], p: PageNumber, at: usize)
    requires p_bound { p.0 < 2 ^ 31 }
    requires p_in_bounds { link_at p.0 < length cells.old }
    requires at_in_bounds { at < length cells.old }
    ensures { cells.new ≡ linked cells.old p.0 at }
{
    let link = marked_link(cells[at]);
    let i = link_at(p);
    cells[i] = link;
    cells[at] = p.0 + LINKS;
}
