// The kind of a page.
ghost use Rattle.std.specs.Prelude.{◌≡◌};
ghost use Rattle.capi.specs.Layouts.{geometry_at};
ghost use Rattle.page.specs.Kinds.{told_of};
ghost use Rattle.capi.specs.Kinds.{kind_answer};

use capi::kind::KindAnswer;
use capi::layout::Geometry;

// The kind of a page of a dump.
#[unsafe(no_mangle)]
pub extern "C" fn lohenarr_kind(dump: &[u8], geometry: Geometry, page: u32) -> KindAnswer
    ensures { result ≡ kind_answer (told_of (geometry_at geometry) dump.now page) }
{
    capi::kind::lohenarr_kind(dump, geometry, page)
}
