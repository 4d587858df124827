// The newest header of an object, by the words of its records, and what it says of the object.
ghost use Rattle.std.specs.Prelude.{◌≡◌, map};
ghost use Rattle.page.specs.Layouts.{header_bytes};
ghost use Rattle.page.specs.Records.{record_at};
ghost use Rattle.sort.specs.Packed.{value_of};
ghost use Rattle.chunk.specs.Answers.{valid_part};
ghost use Rattle.compare.specs.Views.{is_deleted};
ghost use Rattle.compare.specs.Heads.{head_from, page_of, size_by};

use chunk::answer::Chunk;
use chunk::read::part_of;
use chunk::record::{end_of, file_size, is_file, is_gone};
use page::geometry::Geometry;
use page::layout::Layout;
use page::number::PageNumber;
use page::record::{Record, record_at};
use sort::rows::value_of;

// The page of the newest header and the largest end of the data above it.
#[derive(Clone, Copy)]
pub struct Top {
    pub page: PageNumber,
    pub end: u64,
}

// The newest header, if there is one.
pub type Head = Option<Top>;

// The first header of an object's records, the newest first, and the largest end of the data before it.
#[tactic(auto, using(crate::proofs::Tests::cases, crate::proofs::Heads::head_none, crate::proofs::Heads::head_here, crate::proofs::Heads::head_on_lem))]
pub(crate) fn head_of(dump: &[u8], g: Geometry, order: &[u64]) -> Head
    ensures { result ≡ head_from (record_at g dump.now) g.layout.«data» 0 (map value_of order.now) }
{
    let mut end: u64 = 0;
    for i in 0..order.len() {
        let page = PageNumber(value_of(order[i]));
        match record_at(dump, g, page) {
            Record::Header(_) => return Some(Top { page, end }),
            Record::Data(d) => end = end.max(end_of(g.layout.data, d)),
            Record::Other => {}
        }
    }
    None
}

// Whether the object is unlinked or deleted.
#[tactic(auto, using(crate::proofs::Tests::cases))]
pub(crate) fn is_deleted(dump: &[u8], g: Geometry, head: Head) -> bool
    ensures { result ≡ is_deleted (record_at g dump.now) (page_of head) }
{
    matches!(head, Some(top) if is_gone(record_at(dump, g, top.page)))
}

// The size of the object, if it is a live file.
#[tactic(auto, using(crate::proofs::Tests::cases))]
pub(crate) fn size_of(dump: &[u8], g: Geometry, head: Head) -> Option<u64>
    ensures { result ≡ size_by (record_at g dump.now) head }
{
    let Top { page, end } = head?;
    let r = record_at(dump, g, page);
    if is_gone(r) || !is_file(r) {
        return None;
    }
    Some(end.max(file_size(r) as u64))
}

// The bytes of the header on a page, as a part of the dump.
#[tactic(auto, using(crate::proofs::Tests::cases), unfolding(chunk::specs::Answers::part_by))]
pub(crate) fn header_bytes(dump: &[u8], g: Geometry, page: PageNumber) -> &[u8]
    ensures { result.now ≡ valid_part g dump.now page.0 header_bytes }
{
    let header = Chunk::Copy {
        page,
        valid: Layout::HEADER_BYTES,
        shown: 0,
        visits: 0,
    };
    part_of(dump, g, Ok(header))
}
