// When a dump is looked at: as it stands, or as it stood before a record was written.
ghost use Rattle.std.specs.Prelude.{◌≡◌};
ghost use Rattle.page.specs.Records.{record_at};
ghost use Rattle.chunk.specs.Moments.{is_missing, takes_at};

use crate::record::{order_of, sequence_of};
use crate::takes::Takes;
use page::geometry::Geometry;
use page::number::PageNumber;
use page::record::record_at;

// Now, or before the record on a page: a named case says more than an Option, and is what the definitions ask.
#[derive(Clone, Copy)]
pub enum Moment {
    Now,
    Before(PageNumber),
}

impl Moment {
    // Whether a dump of so many pages does not have its page.
    #[tactic(auto, using(crate::proofs::Tests::cases))]
    pub fn is_missing(self, pages: u32) -> bool
        ensures { result ≡ is_missing pages self }
    {
        match self {
            Moment::Now => false,
            Moment::Before(p) => pages <= p.0,
        }
    }

    // Which records are read.
    #[tactic(auto, using(crate::proofs::Tests::cases))]
    pub fn takes(self, dump: &[u8], g: Geometry) -> Takes
        ensures { result ≡ takes_at (record_at g dump.now) self }
    {
        match self {
            Moment::Now => Takes::Every,
            Moment::Before(p) => Takes::Older(order_of(sequence_of(record_at(dump, g, p)), p)),
        }
    }
}
