// Layouts by number, by sizes and as found, and the page count.
ghost use Rattle.std.specs.Prelude.{◌≡◌, length};
ghost use Rattle.page.specs.Find.{find_of, score_under};
ghost use Rattle.page.specs.Layouts.{most_bytes, layout_at, by_number, by_sizes};
ghost use Rattle.page.specs.Lengths.{opened_of};
ghost use Rattle.page.specs.Leaving.{at_least};
ghost use Rattle.capi.specs.Layouts.{geometry_at, layout_answer, pages_answer};

use page::find::{find, score};
use page::layout::Layout;
use page::refusal::Refusal;

// How a dump is read: the number of its layout in the table, and how many pages a block has.
#[repr(C)]
#[derive(Clone, Copy)]
pub struct Geometry {
    pub layout: u32,
    pub block: u32,
}

// A layout with its number in the table; beside a refusal that is 13, which the table lacks.
#[repr(C)]
#[derive(Clone, Copy, Default)]
pub struct LayoutAnswer {
    pub refusal: u32,
    pub number: u32,
    pub data: u32,
    pub spare: u32,
    pub tag: u32,
}

#[repr(C)]
#[derive(Clone, Copy, Default)]
pub struct PagesAnswer {
    pub refusal: u32,
    pub pages: u32,
}

impl From<Result<Layout, Refusal>> for LayoutAnswer {
    ghost from_gives = { λ a r. r ≡ layout_answer a };

    fn from(answer: Result<Layout, Refusal>) -> LayoutAnswer
        ensures { result ≡ layout_answer answer }
    {
        match answer {
            Err(r) => LayoutAnswer {
                refusal: r.number(),
                number: Layout::COUNT,
                ..LayoutAnswer::default()
            },
            Ok(l) => LayoutAnswer {
                refusal: 0,
                number: l.number(),
                data: l.data,
                spare: l.spare,
                tag: l.tag,
            },
        }
    }
}

impl From<Result<u32, Refusal>> for PagesAnswer {
    ghost from_gives = { λ a r. r ≡ pages_answer a };

    fn from(answer: Result<u32, Refusal>) -> PagesAnswer
        ensures { result ≡ pages_answer answer }
    {
        match answer {
            Err(r) => PagesAnswer {
                refusal: r.number(),
                ..PagesAnswer::default()
            },
            Ok(pages) => PagesAnswer {
                pages,
                ..PagesAnswer::default()
            },
        }
    }
}

// The layout with a number; where the table has none, sizes of 0, which every call refuses as BadLayout.
#[tactic(auto, unfolding(page::specs::Layouts::by_number))]
fn layout_at(number: u32) -> Layout
    ensures { result ≡ layout_at number }
{
    match Layout::numbered(number) {
        Ok(layout) => layout,
        Err(_) => Layout {
            data: 0,
            spare: 0,
            tag: 0,
        },
    }
}

// How the dump is read that has the layout of this number; the contracts of the exports say this name.
#[tactic(auto, unfolding(crate::specs::Layouts::geometry_at))]
pub(crate) fn geometry_at(geometry: Geometry) -> page::geometry::Geometry
    ensures { result ≡ geometry_at geometry }
{
    page::geometry::Geometry {
        layout: layout_at(geometry.layout),
        block: geometry.block,
    }
}

// The most bytes that a dump has.
pub fn lohenarr_most_bytes() -> usize
    ensures { result ≡ most_bytes }
{
    Layout::MOST_BYTES
}

// The layout with a number.
pub fn lohenarr_layout(number: u32) -> LayoutAnswer
    ensures { result ≡ layout_answer (by_number number) }
{
    Layout::numbered(number).into()
}

// The layout with these sizes and this tag offset.
pub fn lohenarr_layout_sized(data: u32, spare: u32, tag: u32) -> LayoutAnswer
    ensures { result ≡ layout_answer (by_sizes «data» spare tag) }
{
    Layout::sized(data, spare, tag).into()
}

// The layout of a dump in blocks of k pages.
pub fn lohenarr_find(dump: &[u8], k: u32) -> LayoutAnswer
    ensures { result ≡ layout_answer (find_of dump.now k) }
{
    find(dump, k).into()
}

// The score of finding the layout, for a dump that is read so: how many good pages bear their block's sequence, if it fits and they are at least
// as many as needed; 0 else, and where the dump is refused.
pub fn lohenarr_score(dump: &[u8], geometry: Geometry, need: u32) -> u32
    ensures { result ≡ at_least need (score_under dump.now (geometry_at geometry)) }
{
    score(dump, geometry_at(geometry), need)
}

// The page count of a dump.
pub fn lohenarr_pages(dump: &[u8], geometry: Geometry) -> PagesAnswer
    ensures { result ≡ pages_answer (opened_of (geometry_at geometry) (length dump.now)) }
{
    geometry_at(geometry).opened(dump.len()).into()
}
