// Starting an index, and adding pages to it.
ghost use Rattle.std.specs.Prelude.{◌≡◌, ◌≤◌, ◌<◌, ◌^◌, length, Ok};
ghost use Rattle.page.specs.Records.{record_at};
ghost use Rattle.chunk.specs.Records.{age_of};
ghost use Rattle.index.specs.Cells.{InTable, link_at};
ghost use Rattle.index.specs.Chains.{objects};
ghost use Rattle.index.specs.Places.{Recorded};
ghost use Rattle.index.specs.Additions.{outcome, start_of, add_other, add_at, add_record, add_to, add_of};

use crate::cells::{LAST, cells_for, clear, link_at, put_seed};
use crate::places::{is_marked, place_of, put_link};
use crate::slots::{claim, slot_of};
use chunk::record::order_of;
use page::geometry::Geometry;
use page::number::{ObjectId, PageNumber};
use page::record::{Record, record_at};
use page::refusal::Refusal;

// Makes the index of a dump empty, whatever its words held. The seed is any word: no answer depends on it, and with one that is not known
// beforehand nobody can prepare a dump on which searches are slow.
#[tactic(auto, unfolding(crate::specs::Additions::start_of, crate::specs::Additions::start_in))]
pub fn start(dump: &[u8], g: Geometry, cells: &mut [u32], seed: u32) -> Result<(), Refusal>
    ensures { outcome result cells.new ≡ start_of g dump.now cells.old seed }
{
    let pages = g.opened(dump.len())?;
    let end = cells_for(pages);
    if cells.len() < end {
        return Err(Refusal::ShortIndex);
    }
    clear(cells, end);
    put_seed(cells, seed);
    Ok(())
}

// Puts page p of object o in at a place, where s is the object's slot or is to become it.
#[tactic(auto, unfolding(crate::specs::Additions::add_at))]
fn add_at(cells: &mut [u32], o: ObjectId, p: PageNumber, s: usize, at: usize) -> Result<(), Refusal>
    requires p_bound { p.0 < 2 ^ 31 }
    requires p_in_bounds { link_at p.0 < length cells.old }
    requires in_table { InTable cells.old s }
    requires at_in_bounds { at < length cells.old }
    ensures { outcome result cells.new ≡ add_at cells.old p.0 o.0 s (Ok at) }
{
    if is_marked(cells, p) {
        return Err(Refusal::AlreadyAdded);
    }
    claim(cells, o, s);
    put_link(cells, p, at);
    Ok(())
}

// Adds page p, a record of object o and of this age.
#[tactic(auto, using(crate::proofs::Held::Cases::record_at_lem))]
fn add_record(
    dump: &[u8],
    g: Geometry,
    pages: u32,
    cells: &mut [u32],
    o: ObjectId,
    p: PageNumber,
    age: u64,
) -> Result<(), Refusal>
    requires { Recorded (record_at g dump.now) pages cells.old o.0 p.0 age }
    ensures { outcome result cells.new ≡ add_record pages (objects (record_at g dump.now)) (age_of (record_at g dump.now)) cells.old p.0 }
{
    let s = slot_of(cells, o, pages);
    let at = place_of(dump, g, pages, cells, o, p, age, s)?;
    add_at(cells, o, p, s, at)
}

// Marks page p, which is no record.
#[tactic(auto, unfolding(crate::specs::Additions::add_other))]
fn add_other(cells: &mut [u32], p: PageNumber) -> Result<(), Refusal>
    requires { link_at p.0 < length cells.old }
    ensures { outcome result cells.new ≡ add_other cells.old p.0 }
{
    if is_marked(cells, p) {
        return Err(Refusal::AlreadyAdded);
    }
    cells[link_at(p)] = LAST;
    Ok(())
}

// Adds page p to the index of a dump of so many pages. A page that is no record is passed over: it is marked, and chained nowhere.
#[tactic(auto, unfolding(crate::specs::Additions::add_to))]
pub(crate) fn add_page(
    dump: &[u8],
    g: Geometry,
    pages: u32,
    cells: &mut [u32],
    p: PageNumber,
) -> Result<(), Refusal>
    requires { pages ≤ 2 ^ 31 }
    ensures { outcome result cells.new ≡ add_to pages (objects (record_at g dump.now)) (age_of (record_at g dump.now)) cells.old p.0 }
{
    if cells.len() < cells_for(pages) {
        return Err(Refusal::ShortIndex);
    }
    if pages <= p.0 {
        return Err(Refusal::BadPage);
    }
    let r = record_at(dump, g, p);
    // taken apart by let .. else, as document 01 names the form
    let Record::Header(h) = r else {
        let Record::Data(d) = r else {
            return add_other(cells, p);
        };
        return add_record(dump, g, pages, cells, d.object, p, order_of(d.sequence, p));
    };
    add_record(dump, g, pages, cells, h.object, p, order_of(h.sequence, p))
}

// Adds page p of a dump to its index.
#[tactic(auto, using(page::proofs::Lengths::opened_most), unfolding(crate::specs::Additions::add_of, crate::specs::Additions::add_in))]
pub fn add(dump: &[u8], g: Geometry, cells: &mut [u32], p: PageNumber) -> Result<(), Refusal>
    ensures { outcome result cells.new ≡ add_of g dump.now cells.old p.0 }
{
    let pages = g.opened(dump.len())?;
    add_page(dump, g, pages, cells, p)
}
