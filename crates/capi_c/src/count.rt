// The five counts of a dump.
ghost use Rattle.std.specs.Prelude.{◌≡◌};
ghost use Rattle.capi.specs.Layouts.{geometry_at};
ghost use Rattle.page.specs.Counts.{counted_of};
ghost use Rattle.capi.specs.Counts.{counts_answer};

use capi::count::CountsAnswer;
use capi::layout::Geometry;

// How many pages of a dump are of each kind.
#[unsafe(no_mangle)]
pub extern "C" fn lohenarr_counts(dump: &[u8], geometry: Geometry) -> CountsAnswer
    ensures { result ≡ counts_answer (counted_of (geometry_at geometry) dump.now) }
{
    capi::count::lohenarr_counts(dump, geometry)
}
