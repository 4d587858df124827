// The header fields of a page that are numbers.
ghost use Rattle.std.specs.Prelude.{◌≡◌};
ghost use Rattle.capi.specs.Layouts.{geometry_at};
ghost use Rattle.page.specs.Asked.{headed_of};
ghost use Rattle.capi.specs.Headers.{header_answer};

use crate::layout::{Geometry, geometry_at};
use page::fields::Fields;
use page::header::header;
use page::number::PageNumber;
use page::refusal::Refusal;

// The fields in the table's order.
#[repr(C)]
#[derive(Clone, Copy, Default)]
pub struct HeaderAnswer {
    pub refusal: u32,
    pub page_type: u32,
    pub parent: u32,
    pub unused1: u32,
    pub unused2: u32,
    pub mode: u32,
    pub uid: u32,
    pub gid: u32,
    pub accessed: u32,
    pub modified: u32,
    pub created: u32,
    pub file_size: u32,
    pub equivalent_id: u32,
    pub rdev: u32,
    pub win_created: u64,
    pub win_accessed: u64,
    pub win_modified: u64,
    pub inband_shadow: u32,
    pub inband_shrink: u32,
    pub size_high: u32,
    pub shadowed_id: u32,
    pub shrink: u32,
}

impl From<Result<Fields, Refusal>> for HeaderAnswer {
    ghost from_gives = { λ a r. r ≡ header_answer a };

    fn from(answer: Result<Fields, Refusal>) -> HeaderAnswer
        ensures { result ≡ header_answer answer }
    {
        match answer {
            Err(r) => HeaderAnswer {
                refusal: r.number(),
                ..HeaderAnswer::default()
            },
            Ok(f) => HeaderAnswer {
                refusal: 0,
                page_type: f.page_type,
                parent: f.parent,
                unused1: f.unused1 as u32,
                unused2: f.unused2 as u32,
                mode: f.mode,
                uid: f.uid,
                gid: f.gid,
                accessed: f.accessed,
                modified: f.modified,
                created: f.created,
                file_size: f.file_size,
                equivalent_id: f.equivalent_id,
                rdev: f.rdev,
                win_created: f.win_created,
                win_accessed: f.win_accessed,
                win_modified: f.win_modified,
                inband_shadow: f.inband_shadow,
                inband_shrink: f.inband_shrink,
                size_high: f.size_high,
                shadowed_id: f.shadowed_id,
                shrink: f.shrink,
            },
        }
    }
}

// The header fields of a page that are numbers.
pub fn lohenarr_header(dump: &[u8], geometry: Geometry, page: u32) -> HeaderAnswer
    ensures { result ≡ header_answer (headed_of (geometry_at geometry) dump.now page) }
{
    header(dump, geometry_at(geometry), PageNumber(page)).into()
}
