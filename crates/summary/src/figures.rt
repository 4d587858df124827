// What the report of a dump says, or why there is none.
ghost use Rattle.std.specs.Prelude.{◌≡◌};
ghost use Rattle.summary.specs.Figures.{figured_on, figured_of};

use chunk::list::{live_count, object_count};
use page::count::{Counts, count_kinds};
use page::find::find;
use page::geometry::Geometry;
use page::refusal::Refusal;

#[derive(Clone, Copy)]
pub struct Figures {
    // the layout and the pages of a block
    pub geometry: Geometry,
    pub pages: u32,
    // how many pages are of each kind
    pub counts: Counts,
    // how many ids the records have, and how many objects are live
    pub objects: u32,
    pub live: u32,
}

// The figures of a dump that is read so. Opening alone refuses: the other calls refuse as it does.
#[tactic(auto, using(crate::proofs::Tests::cases), unfolding(crate::specs::Figures::figured_on, crate::specs::Figures::figures_at, page::specs::Counts::counted_of, page::specs::Counts::counted_in, chunk::specs::Lists::object_count_on, chunk::specs::Lists::live_count_on))]
fn figures_on(dump: &[u8], g: Geometry) -> Result<Figures, Refusal>
    ensures { result ≡ figured_on g dump.now }
{
    let pages = g.opened(dump.len())?;
    let counts = count_kinds(dump, g)?;
    let objects = object_count(dump, g)?;
    let live = live_count(dump, g)?;
    Ok(Figures {
        geometry: g,
        pages,
        counts,
        objects,
        live,
    })
}

// The figures of a dump in blocks of k pages, under the layout that is found.
#[tactic(auto, using(crate::proofs::Tests::cases), unfolding(crate::specs::Figures::figured_of, crate::specs::Figures::figured_by))]
pub fn figures_of(dump: &[u8], k: u32) -> Result<Figures, Refusal>
    ensures { result ≡ figured_of dump.now k }
{
    let layout = find(dump, k)?;
    figures_on(dump, Geometry { layout, block: k })
}
