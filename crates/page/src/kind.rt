// The kind of a page, with the values that a record has.
ghost use Rattle.std.specs.Prelude.{◌≡◌, true, ◌≤◌, length};
ghost use Rattle.page.specs.Layouts.{header_bytes, page_len, roomy};
ghost use Rattle.page.specs.Kinds.{bad_type, type_differs, header_of, kind_by, kind_of, kind_at, told_of};

use crate::fields::Fields;
use crate::geometry::Geometry;
use crate::layout::Layout;
use crate::number::{ObjectId, PageNumber};
use crate::record::{Data, Header};
use crate::refusal::Refusal;
use crate::tags::{Claim, Tags, page_at};
use crate::word::word_at;

#[derive(Clone, Copy)]
pub enum Kind {
    Blank,
    Foreign,
    Damaged,
    Header(Header),
    Data(Data),
}

// Whether a page type is none of the five; a limit of its own, a line as short as a function of any limits.
#[tactic(auto, unfolding(crate::specs::Kinds::bad_type))]
fn bad_type(page_type: u32) -> bool
    ensures { result ≡ bad_type page_type }
{
    page_type == 0 || 5 < page_type
}

// Whether the tags have a type, and it differs from the page's.
#[tactic(auto, unfolding(crate::specs::Kinds::type_differs))]
fn type_differs(t: Tags, page_type: u32) -> bool
    ensures { result ≡ type_differs t page_type }
{
    Tags::TOP <= t.chunk && t.object / Tags::IDS != page_type
}

// A header by its tags, with the tests on its types.
#[tactic(auto, unfolding(crate::specs::Kinds::header_of))]
fn header_kind(page: &[u8], t: Tags, sequence: u32, object: ObjectId) -> Kind
    requires { header_bytes ≤ length page.now }
    ensures { result ≡ header_of page.now t sequence object }
{
    let page_type = word_at(page, Fields::TYPE);
    if bad_type(page_type) || type_differs(t, page_type) {
        return Kind::Damaged;
    }
    Kind::Header(Header {
        sequence,
        object,
        page_type,
        parent: ObjectId(word_at(page, Fields::PARENT)),
        size: word_at(page, Fields::FILE_SIZE),
        shrink: word_at(page, Fields::SHRINK) != 0,
    })
}

// The kind of a page whose tags say this.
#[tactic(auto, unfolding(crate::specs::Kinds::kind_by))]
fn kind_by(page: &[u8], t: Tags, claim: Claim) -> Kind
    requires { header_bytes ≤ length page.now }
    ensures { result ≡ kind_by page.now t claim }
{
    match claim {
        Claim::Blank => Kind::Blank,
        Claim::Foreign => Kind::Foreign,
        Claim::Damaged => Kind::Damaged,
        Claim::Header { sequence, object } => header_kind(page, t, sequence, object),
        Claim::Data(d) => Kind::Data(d),
    }
}

// The kind of a page.
#[tactic(auto, unfolding(crate::specs::Kinds::kind_of, crate::specs::Tags::claim_on))]
fn kind_on(page: &[u8], l: Layout) -> Kind
    requires l_value { roomy l ≡ true }
    requires page_len { length page.now ≡ page_len l }
    ensures { result ≡ kind_of l page.now }
{
    let t = Tags::of_page(page, l);
    kind_by(page, t, t.claim(l.data))
}

// The kind of page n; a page that is not in the dump says nothing, as a blank one.
#[tactic(auto, unfolding(crate::specs::Kinds::kind_at))]
pub fn kind_at(dump: &[u8], g: Geometry, n: PageNumber) -> Kind
    ensures { result ≡ kind_at g dump.now n.0 }
{
    if !g.holds(dump.len(), n) {
        return Kind::Blank;
    }
    kind_on(page_at(dump, g, n), g.layout)
}

// The kind of page n, or why it is refused.
#[tactic(auto, unfolding(crate::specs::Kinds::told_of, crate::specs::Kinds::told_in))]
pub fn page_kind(dump: &[u8], g: Geometry, n: PageNumber) -> Result<Kind, Refusal>
    ensures { result ≡ told_of g dump.now n.0 }
{
    g.placed(dump.len(), n)?;
    Ok(kind_at(dump, g, n))
}
