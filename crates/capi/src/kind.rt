// The kind of a page.
ghost use Rattle.std.specs.Prelude.{◌≡◌};
ghost use Rattle.capi.specs.Layouts.{geometry_at};
ghost use Rattle.page.specs.Kinds.{told_of};
ghost use Rattle.capi.specs.Kinds.{kind_answer};

use crate::layout::{Geometry, geometry_at};
use page::kind::{Kind, page_kind};
use page::number::PageNumber;
use page::refusal::Refusal;

// What a page is: 1 blank, 2 foreign, 3 damaged, 4 header, 5 data; 0 beside a refusal. Fields that its kind lacks are 0.
#[repr(C)]
#[derive(Clone, Copy, Default)]
pub struct KindAnswer {
    pub refusal: u32,
    pub kind: u32,
    pub sequence: u32,
    pub object: u32,
    pub page_type: u32,
    pub parent: u32,
    pub size: u32,
    pub shrink: u32,
    pub chunk: u32,
    pub count: u32,
}

// Each kind has the number that C reads.
impl From<Result<Kind, Refusal>> for KindAnswer {
    ghost from_gives = { λ a r. r ≡ kind_answer a };

    fn from(answer: Result<Kind, Refusal>) -> KindAnswer
        ensures { result ≡ kind_answer answer }
    {
        match answer {
            Err(r) => KindAnswer {
                refusal: r.number(),
                ..KindAnswer::default()
            },
            Ok(Kind::Blank) => KindAnswer {
                kind: 1,
                ..KindAnswer::default()
            },
            Ok(Kind::Foreign) => KindAnswer {
                kind: 2,
                ..KindAnswer::default()
            },
            Ok(Kind::Damaged) => KindAnswer {
                kind: 3,
                ..KindAnswer::default()
            },
            Ok(Kind::Header(h)) => KindAnswer {
                kind: 4,
                sequence: h.sequence,
                object: h.object.0,
                page_type: h.page_type,
                parent: h.parent.0,
                size: h.size,
                shrink: h.shrink as u32,
                ..KindAnswer::default()
            },
            Ok(Kind::Data(d)) => KindAnswer {
                kind: 5,
                sequence: d.sequence,
                object: d.object.0,
                chunk: d.chunk.0,
                count: d.count,
                ..KindAnswer::default()
            },
        }
    }
}

// The kind of a page of a dump.
pub fn lohenarr_kind(dump: &[u8], geometry: Geometry, page: u32) -> KindAnswer
    ensures { result ≡ kind_answer (told_of (geometry_at geometry) dump.now page) }
{
    page_kind(dump, geometry_at(geometry), PageNumber(page)).into()
}
