// Records: what a header and a data page say, and the record that a page is. The rules ask this alone of a page, so that one more kind of
// page that is no record alters nothing above.
ghost use Rattle.std.specs.Prelude.{◌≡◌};
ghost use Rattle.page.specs.Records.{record_of, record_at};

use crate::geometry::Geometry;
use crate::kind::{Kind, kind_at};
use crate::number::{ChunkNumber, ObjectId, PageNumber};

// What a header says.
#[derive(Clone, Copy)]
pub struct Header {
    pub sequence: u32,
    pub object: ObjectId,
    pub page_type: u32,
    pub parent: ObjectId,
    pub size: u32,
    pub shrink: bool,
}

// What a data page says.
#[derive(Clone, Copy)]
pub struct Data {
    pub sequence: u32,
    pub object: ObjectId,
    pub chunk: ChunkNumber,
    pub count: u32,
}

// The record that a page is, if it is one.
#[derive(Clone, Copy)]
pub enum Record {
    Other,
    Header(Header),
    Data(Data),
}

// The record that a page of this kind is.
impl From<Kind> for Record {
    ghost from_gives = { λ k r. r ≡ record_of k };

    fn from(k: Kind) -> Record
        ensures { result ≡ record_of k }
    {
        match k {
            Kind::Blank | Kind::Foreign | Kind::Damaged => Record::Other,
            Kind::Header(h) => Record::Header(h),
            Kind::Data(d) => Record::Data(d),
        }
    }
}

// The record that page n is; a page that is not in the dump is none.
#[tactic(auto, unfolding(crate::specs::Records::record_at))]
pub fn record_at(dump: &[u8], g: Geometry, n: PageNumber) -> Record
    ensures { result ≡ record_at g dump.now n.0 }
{
    kind_at(dump, g, n).into()
}
