// The table of objects: the slot of each, with its id and the link to its newest record.
ghost use Rattle.std.specs.Prelude.{◌≡◌, ◌≤◌, ◌<◌, length};
ghost use Rattle.index.specs.Cells.{cells_for, InTable, AllInTable, keys, claimed};
ghost use Rattle.index.specs.Slots.{down, mixed, home_of, slot_of, first_in, first_link};

use crate::cells::{cells_for, first_at, key_at, seed_of, slots_for};
use page::number::ObjectId;
use sort::rows::WORD_VALUES;

// What lies below the middle of a product of an id and a seed, and below that of a square.
const BELOW_PRODUCT: u64 = 0x4000;

const BELOW_SQUARE: u64 = 0x1_0000;

// The first slot that is free, of key 0, or object o's, from the one below m down. Keys are words, as they are stored.
#[tactic(auto, using(crate::proofs::Slot::Words::key_room, crate::proofs::Slot::Search::down_none, crate::proofs::Slot::Search::down_free, crate::proofs::Slot::Search::down_own, crate::proofs::Slot::Search::down_on))]
fn slot_below(cells: &[u32], o: ObjectId, m: usize) -> Option<usize>
    requires { AllInTable cells.now m }
    ensures { result ≡ down (keys cells.now) o.0 m }
{
    for s in (0..m).rev() {
        let key = cells[key_at(s)];
        if key == 0 || key == o.0 {
            return Some(s);
        }
    }
    None
}

// The id of object o mixed with a seed, so that who does not know the seed cannot choose ids that meet.
#[tactic(auto, unfolding(crate::specs::Slots::mixed))]
fn mix(seed: u32, o: ObjectId) -> u64
    ensures { result ≡ mixed seed o.0 }
{
    let id = o.0 as u64;
    let t = id * (seed as u64) / BELOW_PRODUCT % WORD_VALUES;
    id + t * t / BELOW_SQUARE % WORD_VALUES
}

// The home of object o among so many slots: where the search for its slot begins.
fn home_of(seed: u32, o: ObjectId, slots: usize) -> usize
    requires { 0 < slots }
    ensures { result ≡ home_of slots seed o.0 }
{
    (mix(seed, o) as usize) % slots
}

// The slot of object o: from its home down, then from the last one down, the first that is free or the object's; its home where none is.
#[tactic(auto, using(crate::proofs::Slot::Words::slot_in, crate::proofs::Slot::Words::slots_some, crate::proofs::Slot::Search::home_lt))]
pub(crate) fn slot_of(cells: &[u32], o: ObjectId, pages: u32) -> usize
    requires pages_nonzero { 0 < pages }
    requires pages_in_bounds { cells_for pages ≤ length cells.now }
    ensures value { result ≡ slot_of pages cells.now o.0 }
    ensures in_table { InTable cells.now result }
{
    let slots = slots_for(pages);
    let home = home_of(seed_of(cells), o, slots);
    match slot_below(cells, o, home + 1) {
        Some(s) => s,
        None => slot_below(cells, o, slots).unwrap_or(home),
    }
}

// The link to the first record of object o if slot s is the object's, else 0, a link that leads nowhere: links are words as they are stored.
#[tactic(auto, using(crate::proofs::Slot::Words::key_room), unfolding(crate::specs::Slots::first_in))]
pub(crate) fn first_of(cells: &[u32], o: ObjectId, s: usize) -> u32
    requires { InTable cells.now s }
    ensures { result ≡ first_in cells.now s o.0 }
{
    if cells[key_at(s)] != o.0 {
        return 0;
    }
    cells[first_at(s)]
}

// The link to the first record of object o; 0, one that leads nowhere, where the words are too few for so many pages, so that walks ask for no room.
#[tactic(auto, unfolding(crate::specs::Slots::first_link, crate::specs::Slots::first))]
pub fn first_link(cells: &[u32], o: ObjectId, pages: u32) -> u32
    ensures { result ≡ first_link pages cells.now o.0 }
{
    if pages == 0 || cells.len() < cells_for(pages) {
        return 0;
    }
    first_of(cells, o, slot_of(cells, o, pages))
}

// Makes slot s the slot of object o: if it is not yet, the object has no record.
#[tactic(auto, using(crate::proofs::Slot::Words::key_room), unfolding(crate::specs::Cells::claimed))]
pub(crate) fn claim(cells: &mut [u32], o: ObjectId, s: usize)
    requires { InTable cells.old s }
    ensures { cells.new ≡ claimed cells.old s o.0 }
{
    let i = key_at(s);
    if cells[i] != o.0 {
        cells[i] = o.0;
        cells[first_at(s)] = 0;
    }
}
