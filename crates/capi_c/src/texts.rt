// The header fields of a page that are bytes.
ghost use Rattle.std.specs.Prelude.{◌≡◌, take, drop};
ghost use Rattle.capi.specs.Layouts.{geometry_at};
ghost use Rattle.page.specs.Asked.{text_at};
ghost use Rattle.page.specs.declared.fields.Text.TheVariants.{Name, Alias, Reserved};
ghost use Rattle.capi.specs.Headers.{text_answer};

use capi::layout::Geometry;
use capi::texts::PartAnswer;

// The name in a header, 256 bytes.
#[unsafe(no_mangle)]
pub extern "C" fn lohenarr_header_name(dump: &[u8], geometry: Geometry, page: u32) -> PartAnswer
    ensures value { result ≡ text_answer Name (geometry_at geometry) dump.now page }
    ensures dump_value { take result.length (drop result.offset dump.now) ≡ text_at Name (geometry_at geometry) dump.now page }
{
    capi::texts::lohenarr_header_name(dump, geometry, page)
}

// The alias in a header, 160 bytes.
#[unsafe(no_mangle)]
pub extern "C" fn lohenarr_header_alias(dump: &[u8], geometry: Geometry, page: u32) -> PartAnswer
    ensures value { result ≡ text_answer Alias (geometry_at geometry) dump.now page }
    ensures dump_value { take result.length (drop result.offset dump.now) ≡ text_at Alias (geometry_at geometry) dump.now page }
{
    capi::texts::lohenarr_header_alias(dump, geometry, page)
}

// The reserved bytes of a header, 4 bytes.
#[unsafe(no_mangle)]
pub extern "C" fn lohenarr_header_reserved(dump: &[u8], geometry: Geometry, page: u32) -> PartAnswer
    ensures value { result ≡ text_answer Reserved (geometry_at geometry) dump.now page }
    ensures dump_value { take result.length (drop result.offset dump.now) ≡ text_at Reserved (geometry_at geometry) dump.now page }
{
    capi::texts::lohenarr_header_reserved(dump, geometry, page)
}
