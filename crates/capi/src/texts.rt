// The header fields of a page that are bytes, as places in the dump.
ghost use Rattle.std.specs.Prelude.{◌≡◌, take, drop};
ghost use Rattle.capi.specs.Layouts.{geometry_at};
ghost use Rattle.page.specs.Asked.{text_at};
ghost use Rattle.page.specs.declared.fields.Text.TheVariants.{Name, Alias, Reserved};
ghost use Rattle.capi.specs.Headers.{text_answer};

use crate::layout::{Geometry, geometry_at};
use page::fields::Text;
use page::header::header;
use page::number::PageNumber;

// A part of the dump: where it begins and how long it is. Beside a refusal it is empty, at 0.
#[repr(C)]
#[derive(Clone, Copy, Default)]
pub struct PartAnswer {
    pub refusal: u32,
    pub offset: usize,
    pub length: usize,
}

#[tactic(auto, unfolding(crate::specs::Headers::text_answer))]
fn text_answer(dump: &[u8], geometry: Geometry, page: u32, f: Text) -> PartAnswer
    ensures { result ≡ text_answer f (geometry_at geometry) dump.now page }
{
    let g = geometry_at(geometry);
    match header(dump, g, PageNumber(page)) {
        Err(r) => PartAnswer {
            refusal: r.number(),
            ..PartAnswer::default()
        },
        Ok(_) => PartAnswer {
            refusal: 0,
            offset: (page as usize) * g.layout.page_len() + f.place(),
            length: f.length(),
        },
    }
}

// The name in a header, 256 bytes. C has a function for each of the three texts.
pub fn lohenarr_header_name(dump: &[u8], geometry: Geometry, page: u32) -> PartAnswer
    ensures value { result ≡ text_answer Name (geometry_at geometry) dump.now page }
    ensures dump_value { take result.length (drop result.offset dump.now) ≡ text_at Name (geometry_at geometry) dump.now page }
{
    text_answer(dump, geometry, page, Text::Name)
}

// The alias in a header, 160 bytes.
pub fn lohenarr_header_alias(dump: &[u8], geometry: Geometry, page: u32) -> PartAnswer
    ensures value { result ≡ text_answer Alias (geometry_at geometry) dump.now page }
    ensures dump_value { take result.length (drop result.offset dump.now) ≡ text_at Alias (geometry_at geometry) dump.now page }
{
    text_answer(dump, geometry, page, Text::Alias)
}

// The reserved bytes of a header, 4 bytes.
pub fn lohenarr_header_reserved(dump: &[u8], geometry: Geometry, page: u32) -> PartAnswer
    ensures value { result ≡ text_answer Reserved (geometry_at geometry) dump.now page }
    ensures dump_value { take result.length (drop result.offset dump.now) ≡ text_at Reserved (geometry_at geometry) dump.now page }
{
    text_answer(dump, geometry, page, Text::Reserved)
}
