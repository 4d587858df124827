// Adding a run of pages in one call, so that a dump is opened once for all of them; every page, or only the records older than a given one, for
// what the dump held before that was written.
ghost use Rattle.std.specs.Prelude.{◌≡◌, ◌-◌, ◌≤◌, ◌^◌};
ghost use Rattle.page.specs.Records.{record_at};
ghost use Rattle.chunk.specs.Records.{age_of};
ghost use Rattle.index.specs.Chains.{objects};
ghost use Rattle.index.specs.Runs.{ran, taken_by, run_by, run_of, older_of};

use crate::additions::add_page;
use crate::cells::cells_for;
use chunk::record::{object_of, order_of, sequence_of};
use chunk::takes::{Takes, seen_at};
use page::geometry::Geometry;
use page::number::PageNumber;
use page::record::record_at;
use page::refusal::Refusal;

// Whether page p is taken.
fn is_taken(dump: &[u8], g: Geometry, takes: Takes, p: PageNumber) -> bool
    ensures { result ≡ taken_by takes (record_at g dump.now) p.0 }
{
    matches!(takes, Takes::Every) || object_of(seen_at(dump, g, takes, p)) != 0
}

// Where a run of additions stopped: the page that was refused, and why. Those before it stand.
#[derive(Clone, Copy)]
pub struct Stop {
    pub page: PageNumber,
    pub refusal: Refusal,
}

// How a run of additions ended.
pub type Run = Result<(), Stop>;

// Adds the pages taken from one to before another to the index of a dump of so many pages, until one is refused.
fn run_pages(
    dump: &[u8],
    g: Geometry,
    pages: u32,
    cells: &mut [u32],
    from: PageNumber,
    to: PageNumber,
    takes: Takes,
) -> Run
    requires { pages ≤ 2 ^ 31 }
    ensures { ran result cells.new ≡ run_by (taken_by takes (record_at g dump.now)) pages (objects (record_at g dump.now)) (age_of (record_at g dump.now)) (to.0 - from.0) from.0 cells.old }
{
    for i in from.0..to.0 {
        let page = PageNumber(i);
        if !is_taken(dump, g, takes, page) {
            continue;
        }
        if let Err(refusal) = add_page(dump, g, pages, cells, page) {
            return Err(Stop { page, refusal });
        }
    }
    Ok(())
}

// Adds the pages of a dump from one to before another to its index, until one is refused. A dump or words that
// no addition would take are refused even if there is no page to add.
#[tactic(auto, using(page::proofs::Lengths::opened_most, crate::proofs::Mapped::value_kept), unfolding(crate::specs::Runs::taken_of, crate::specs::Runs::run_in))]
pub fn add_run(dump: &[u8], g: Geometry, cells: &mut [u32], from: PageNumber, to: PageNumber) -> Run
    ensures { ran result cells.new ≡ run_of g dump.now cells.old from.0 to.0 }
{
    let pages = g.opened(dump.len()).map_err(|refusal| Stop {
        page: from,
        refusal,
    })?;
    if cells.len() < cells_for(pages) {
        return Err(Stop {
            page: from,
            refusal: Refusal::ShortIndex,
        });
    }
    run_pages(dump, g, pages, cells, from, to, Takes::Every)
}

// Adds of the pages of a dump from one to before another the records that are older than page `before` to its index, until one is refused. A
// page `before` that the dump does not have is refused, and one that is no record has none that are older.
#[tactic(auto, using(page::proofs::Lengths::opened_most, crate::proofs::Mapped::value_kept), unfolding(crate::specs::Runs::older_of, crate::specs::Runs::older_in, crate::specs::Runs::run_in))]
pub fn add_older(
    dump: &[u8],
    g: Geometry,
    cells: &mut [u32],
    from: PageNumber,
    to: PageNumber,
    before: PageNumber,
) -> Run
    ensures { ran result cells.new ≡ older_of g dump.now cells.old from.0 to.0 before.0 }
{
    let pages = g.opened(dump.len()).map_err(|refusal| Stop {
        page: from,
        refusal,
    })?;
    if cells.len() < cells_for(pages) {
        return Err(Stop {
            page: from,
            refusal: Refusal::ShortIndex,
        });
    }
    if pages <= before.0 {
        return Err(Stop {
            page: from,
            refusal: Refusal::BadPage,
        });
    }
    let r = record_at(dump, g, before);
    let takes = Takes::Older(order_of(sequence_of(r), before));
    run_pages(
        dump,
        g,
        pages,
        cells,
        from,
        PageNumber(to.0.min(pages)),
        takes,
    )
}
