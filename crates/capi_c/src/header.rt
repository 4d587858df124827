// The header fields of a page that are numbers.
ghost use Rattle.std.specs.Prelude.{◌≡◌};
ghost use Rattle.capi.specs.Layouts.{geometry_at};
ghost use Rattle.page.specs.Asked.{headed_of};
ghost use Rattle.capi.specs.Headers.{header_answer};

use capi::header::HeaderAnswer;
use capi::layout::Geometry;

// The header fields of a page that are numbers.
#[unsafe(no_mangle)]
pub extern "C" fn lohenarr_header(dump: &[u8], geometry: Geometry, page: u32) -> HeaderAnswer
    ensures { result ≡ header_answer (headed_of (geometry_at geometry) dump.now page) }
{
    capi::header::lohenarr_header(dump, geometry, page)
}
