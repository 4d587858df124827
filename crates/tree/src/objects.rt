// What the whole crate asks of an object: whether it is the root, and what its newest header says of it as an entry and as a directory.
ghost use Rattle.std.specs.Prelude.{◌≡◌};
ghost use Rattle.tree.specs.Objects.{parent_in, stand_by, is_standing};

use chunk::record::gone_under;
use page::record::Record;

// The id of the root.
pub(crate) const ROOT: u32 = 1;
// The type of a directory.
const DIRECTORY: u32 = 3;
// How many steps below the root the first list goes.
pub(crate) const MOST_DEPTH: u32 = 32;

// The parent that a header names; 0, which no object has, for another page: the definition goes on from there as from an object with no header.
pub(crate) fn parent_in(r: Record) -> u32
    ensures { result ≡ parent_in r }
{
    match r {
        Record::Header(h) => h.parent.0,
        Record::Other | Record::Data(_) => 0,
    }
}

// Whether an object stands as a directory, by its newest header; a test of its own, as those of chunk's records.
#[tactic(auto, using(crate::proofs::Tests::cases))]
pub(crate) fn is_standing(r: Record) -> bool
    ensures { result ≡ is_standing (stand_by r) }
{
    match r {
        Record::Header(h) => !gone_under(h.parent) && h.page_type == DIRECTORY,
        Record::Other | Record::Data(_) => false,
    }
}
