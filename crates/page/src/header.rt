// The header fields of a page of a dump.
ghost use Rattle.std.specs.Prelude.{◌≡◌, true, length};
ghost use Rattle.page.specs.Counts.{is_header};
ghost use Rattle.page.specs.Headers.{text_of};
ghost use Rattle.page.specs.Lengths.{page_in};
ghost use Rattle.page.specs.Pages.{page_at};
ghost use Rattle.page.specs.Asked.{asked_of, headed_of, text_at, text_in};

use crate::fields::{Fields, Text};
use crate::geometry::Geometry;
use crate::kind::{Kind, kind_at, page_kind};
use crate::number::PageNumber;
use crate::refusal::Refusal;
use crate::tags::page_at;

// Whether a page of this kind is a header; `chunk` asks it of a record.
pub fn is_header(k: Kind) -> bool
    ensures { result ≡ is_header k }
{
    // taken apart by let .. else, as document 01 names the form
    let Kind::Header(_) = k else {
        return false;
    };
    true
}

// Whether the fields of page n can be read.
#[tactic(auto, unfolding(crate::specs::Asked::asked_of, crate::specs::Asked::asked_by))]
fn ask_header(dump: &[u8], g: Geometry, n: PageNumber) -> Result<(), Refusal>
    ensures { result ≡ asked_of g dump.now n.0 }
{
    if is_header(page_kind(dump, g, n)?) {
        Ok(())
    } else {
        Err(Refusal::NotHeader)
    }
}

// The header fields of page n that are numbers.
#[tactic(auto, unfolding(crate::specs::Asked::headed_of, crate::specs::Asked::headed_by))]
pub fn header(dump: &[u8], g: Geometry, n: PageNumber) -> Result<Fields, Refusal>
    ensures { result ≡ headed_of g dump.now n.0 }
{
    ask_header(dump, g, n)?;
    Ok(Fields::of_page(page_at(dump, g, n)))
}

// A header field that is bytes of page n, which lies in the dump, as a part of it.
#[tactic(auto, unfolding(crate::specs::Headers::text_of))]
fn text_on(dump: &[u8], g: Geometry, n: PageNumber, f: Text) -> &[u8]
    requires { page_in g (length dump.now) n.0 ≡ true }
    ensures { result.now ≡ text_of f (page_at g dump.now n.0) }
{
    let page = page_at(dump, g, n);
    let from = f.place();
    let end = from + f.length();
    &page[from..end]
}

// A header field of page n that is bytes, as a part of the dump; an empty part where `header` refuses.
#[tactic(auto, unfolding(crate::specs::Asked::text_at, crate::specs::Asked::text_by))]
pub fn header_text(dump: &[u8], g: Geometry, n: PageNumber, f: Text) -> &[u8]
    ensures { result.now ≡ text_at f g dump.now n.0 }
{
    match ask_header(dump, g, n) {
        Ok(()) => text_on(dump, g, n, f),
        Err(_) => &[],
    }
}

// The same where nothing is refused: an empty part of a page that is no header. Whoever reads many fields of one dump need not have it asked each time.
#[tactic(auto, unfolding(crate::specs::Asked::text_in))]
pub fn text_in(dump: &[u8], g: Geometry, n: PageNumber, f: Text) -> &[u8]
    ensures { result.now ≡ text_in f g dump.now n.0 }
{
    if is_header(kind_at(dump, g, n)) {
        text_on(dump, g, n, f)
    } else {
        &[]
    }
}
