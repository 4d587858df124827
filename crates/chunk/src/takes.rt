// A dump as it stood before an age: what its pages say where only the records below that age are read.
ghost use Rattle.std.specs.Prelude.{◌≡◌};
ghost use Rattle.page.specs.Records.{record_at};
ghost use Rattle.chunk.specs.Takes.{seen_by};

use crate::record::{order_of, sequence_of};
use page::geometry::Geometry;
use page::number::PageNumber;
use page::record::{Record, record_at};

// Which pages are taken: every one, or the records below an age. Contracts say it, as a closure could not be named in them.
#[derive(Clone, Copy)]
pub enum Takes {
    Every,
    Older(u64),
}

// What page p says, where a page that is not taken is read as blank.
#[tactic(auto, using(crate::proofs::Tests::cases))]
pub fn seen_at(dump: &[u8], g: Geometry, t: Takes, p: PageNumber) -> Record
    ensures { result ≡ seen_by t (record_at g dump.now) p.0 }
{
    let r = record_at(dump, g, p);
    match t {
        Takes::Older(bound) if bound <= order_of(sequence_of(r), p) => Record::Other,
        _ => r,
    }
}
