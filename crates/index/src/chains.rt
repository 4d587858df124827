// The chain of an object: its added records, from the newest to the oldest.
ghost use Rattle.std.specs.Prelude.{◌≡◌};
ghost use Rattle.page.specs.Records.{record_at};
ghost use Rattle.chunk.specs.Records.{age_of};
ghost use Rattle.index.specs.Chains.{objects, lead_of, step_of, step_at};

use crate::cells::LINKS;
use chunk::record::order_of;
use page::geometry::Geometry;
use page::number::{ObjectId, PageNumber};
use page::record::{Data, Record, record_at};

// An age that is above that of every record.
pub const TOP: u64 = 18_446_744_073_709_551_615;

// What a record is on its chain. What a header says is not read here: it stands elsewhere on the page. No Option of Data: the name says that
// what has no data is a header.
#[derive(Clone, Copy)]
pub enum Role {
    Header,
    Data(Data),
}

// A step down a chain by a link: it leads nowhere, where it may not, or to a record, with its age and what it is. A `match` on three cases is
// plainer than on an Option in a Result.
#[derive(Clone, Copy)]
pub enum Step {
    End,
    Damaged,
    Record(PageNumber, u64, Role),
}

// The step to page q, a record of this object and sequence, in the chain of object o below an age.
fn step_to(
    q: PageNumber,
    object: ObjectId,
    sequence: u32,
    role: Role,
    o: ObjectId,
    bound: u64,
) -> Step
    ensures { result ≡ step_at q.0 object.0 sequence role o.0 bound }
{
    let age = order_of(sequence, q);
    if object != o || bound <= age {
        return Step::Damaged;
    }
    Step::Record(q, age, role)
}

// The walks down a chain are loops over `follow`, each with what it gathers of its own: one walk for all took longer (docs/DECISIONS.md, 8.10).

// Where a link leads in the chain of object o below an age, in a dump of so many pages. A link may not lead outside the dump, to a page that
// is not a record of that object, or to one that is not older.
#[tactic(auto, unfolding(crate::specs::Chains::step_of, crate::specs::Chains::lead_of))]
pub fn follow(dump: &[u8], g: Geometry, pages: u32, o: ObjectId, bound: u64, link: u32) -> Step
    ensures { result ≡ step_of (record_at g dump.now) (lead_of pages (objects (record_at g dump.now)) (age_of (record_at g dump.now)) o.0 bound link) }
{
    if link < LINKS {
        return Step::End;
    }
    let q = PageNumber(link - LINKS);
    if pages <= q.0 {
        return Step::Damaged;
    }
    let r = record_at(dump, g, q);
    // taken apart by let .. else, as document 01 names the form
    let Record::Data(d) = r else {
        let Record::Header(h) = r else {
            return Step::Damaged;
        };
        return step_to(q, h.object, h.sequence, Role::Header, o, bound);
    };
    step_to(q, d.object, d.sequence, Role::Data(d), o, bound)
}
