// Layouts by number, by sizes and as found, and the page count.
ghost use Rattle.std.specs.Prelude.{◌≡◌, length};
ghost use Rattle.page.specs.Find.{find_of, score_under};
ghost use Rattle.page.specs.Layouts.{most_bytes, by_number, by_sizes};
ghost use Rattle.page.specs.Lengths.{opened_of};
ghost use Rattle.page.specs.Leaving.{at_least};
ghost use Rattle.capi.specs.Layouts.{geometry_at, layout_answer, pages_answer};

use capi::layout::{Geometry, LayoutAnswer, PagesAnswer};

// The most bytes that a dump has.
#[unsafe(no_mangle)]
pub extern "C" fn lohenarr_most_bytes() -> usize
    ensures { result ≡ most_bytes }
{
    capi::layout::lohenarr_most_bytes()
}

// The layout with a number.
#[unsafe(no_mangle)]
pub extern "C" fn lohenarr_layout(number: u32) -> LayoutAnswer
    ensures { result ≡ layout_answer (by_number number) }
{
    capi::layout::lohenarr_layout(number)
}

// The layout with these sizes and this tag offset.
#[unsafe(no_mangle)]
pub extern "C" fn lohenarr_layout_sized(data: u32, spare: u32, tag: u32) -> LayoutAnswer
    ensures { result ≡ layout_answer (by_sizes «data» spare tag) }
{
    capi::layout::lohenarr_layout_sized(data, spare, tag)
}

// The layout of a dump in blocks of k pages.
#[unsafe(no_mangle)]
pub extern "C" fn lohenarr_find(dump: &[u8], k: u32) -> LayoutAnswer
    ensures { result ≡ layout_answer (find_of dump.now k) }
{
    capi::layout::lohenarr_find(dump, k)
}

// The score of finding the layout, for a dump that is read so: how many good pages bear their block's sequence, if it fits and they are at least
// as many as needed; 0 else, and where the dump is refused.
#[unsafe(no_mangle)]
pub extern "C" fn lohenarr_score(dump: &[u8], geometry: Geometry, need: u32) -> u32
    ensures { result ≡ at_least need (score_under dump.now (geometry_at geometry)) }
{
    capi::layout::lohenarr_score(dump, geometry, need)
}

// The page count of a dump.
#[unsafe(no_mangle)]
pub extern "C" fn lohenarr_pages(dump: &[u8], geometry: Geometry) -> PagesAnswer
    ensures { result ≡ pages_answer (opened_of (geometry_at geometry) (length dump.now)) }
{
    capi::layout::lohenarr_pages(dump, geometry)
}
