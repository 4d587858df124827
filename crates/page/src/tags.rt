// The tags of a page, and what they alone say of it.
ghost use Rattle.std.specs.Prelude.{◌≡◌, ◌+◌, ◌≤◌, length, true};
ghost use Rattle.page.specs.Layouts.{tag_length, page_len, roomy};
ghost use Rattle.page.specs.Lengths.{page_in};
ghost use Rattle.page.specs.Pages.{page_at};
ghost use Rattle.page.specs.Tags.{tags_of, tag_bytes, object_in, header_claim, data_claim, claim_of, claim_at, names_at};

use crate::geometry::Geometry;
use crate::layout::Layout;
use crate::number::{ChunkNumber, ObjectId, PageNumber};
use crate::record::Data;
use crate::word::word_at;

// The four words of a page's tags.
#[derive(Clone, Copy)]
pub struct Tags {
    pub sequence: u32,
    pub object: u32,
    pub chunk: u32,
    pub count: u32,
}

// What a page's tags alone say of it. A header may still be damaged by its type, which stands in the page.
#[derive(Clone, Copy)]
pub enum Claim {
    Blank,
    Foreign,
    Damaged,
    Header { sequence: u32, object: ObjectId },
    Data(Data),
}

impl Tags {
    // The sequence of a page that was never written.
    pub const BLANK: u32 = 0xFFFF_FFFF;
    // The least and the largest sequence of a record.
    pub const LEAST: u32 = 0x1000;

    pub const MOST: u32 = 0xEFFF_FF00;
    // From this chunk word on the top bit is set.
    pub const TOP: u32 = 0x8000_0000;
    // The object word holds a type above this many ids.
    pub const IDS: u32 = 0x1000_0000;

    // The tags that 16 bytes hold.
    #[tactic(auto, unfolding(crate::specs::Tags::tags_of))]
    fn parse(s: &[u8]) -> Tags
        requires { tag_length ≤ length s.now }
        ensures { result ≡ tags_of s.now }
    {
        Tags {
            sequence: word_at(s, 0),
            object: word_at(s, 4),
            chunk: word_at(s, 8),
            count: word_at(s, 12),
        }
    }

    // The tags of a page: its spare, and the tag bytes in that, are parts from the middle.
    #[tactic(auto, unfolding(crate::specs::Tags::tag_bytes))]
    pub(crate) fn of_page(page: &[u8], l: Layout) -> Tags
        requires l_value { roomy l ≡ true }
        requires page_len { length page.now ≡ page_len l }
        ensures { result ≡ tags_of (tag_bytes l page.now) }
    {
        let d = l.data as usize;
        let spare = &page[d..];
        let t = l.tag_place() - d;
        let e = t + Layout::TAG_BYTES;
        Tags::parse(&spare[t..e])
    }

    // The object id of a header's tags.
    #[tactic(auto, unfolding(crate::specs::Tags::object_in))]
    fn header_object(self) -> u32
        ensures { result ≡ object_in self }
    {
        if Tags::TOP <= self.chunk {
            return self.object % Tags::IDS;
        }
        self.object
    }

    #[tactic(auto, unfolding(crate::specs::Tags::header_claim))]
    fn header_claim(self) -> Claim
        ensures { result ≡ header_claim self }
    {
        let object = ObjectId(self.header_object());
        if object.is_bad() {
            return Claim::Damaged;
        }
        Claim::Header {
            sequence: self.sequence,
            object,
        }
    }

    #[tactic(auto, unfolding(crate::specs::Tags::data_claim))]
    fn data_claim(self, data: u32) -> Claim
        ensures { result ≡ data_claim «data» self }
    {
        let object = ObjectId(self.object);
        if object.is_bad()
            || ChunkNumber::MOST < self.chunk
            || self.count == 0
            || data < self.count
        {
            return Claim::Damaged;
        }
        Claim::Data(Data {
            sequence: self.sequence,
            object,
            chunk: ChunkNumber(self.chunk),
            count: self.count,
        })
    }

    // What the tags say of a page with so many data bytes, first match wins.
    #[tactic(auto, unfolding(crate::specs::Tags::claim_of))]
    pub(crate) fn claim(self, data: u32) -> Claim
        ensures { result ≡ claim_of «data» self }
    {
        if self.sequence == Tags::BLANK {
            return Claim::Blank;
        }
        if self.sequence < Tags::LEAST || Tags::MOST < self.sequence {
            return Claim::Foreign;
        }
        if Tags::TOP <= self.chunk || self.chunk == 0 {
            return self.header_claim();
        }
        self.data_claim(data)
    }
}

// The bytes of page n, which lies in the dump.
#[tactic(auto, unfolding(crate::specs::Pages::page_at))]
pub(crate) fn page_at(dump: &[u8], g: Geometry, n: PageNumber) -> &[u8]
    requires { page_in g (length dump.now) n.0 ≡ true }
    ensures { result.now ≡ page_at g dump.now n.0 }
{
    let size = g.layout.page_len();
    let a = (n.0 as usize) * size;
    let e = a + size;
    &dump[a..e]
}

// The tags of page n, which lies in the dump.
pub(crate) fn tags_at(dump: &[u8], g: Geometry, n: PageNumber) -> Tags
    requires { page_in g (length dump.now) n.0 ≡ true }
    ensures { result ≡ tags_of (tag_bytes g.layout (page_at g dump.now n.0)) }
{
    Tags::of_page(page_at(dump, g, n), g.layout)
}

// What the tags of page n say; a page that is not in the dump says nothing, as a blank one.
#[tactic(auto, unfolding(crate::specs::Tags::claim_at, crate::specs::Tags::claim_on))]
pub fn claim_at(dump: &[u8], g: Geometry, n: PageNumber) -> Claim
    ensures { result ≡ claim_at g dump.now n.0 }
{
    if !g.holds(dump.len(), n) {
        return Claim::Blank;
    }
    tags_at(dump, g, n).claim(g.layout.data)
}

// Whether the tags of page n name object o, by their object word alone: a page of which they do not is no record of it.
#[tactic(auto, unfolding(crate::specs::Tags::names_at))]
pub fn names_object(dump: &[u8], g: Geometry, n: PageNumber, o: ObjectId) -> bool
    ensures { result ≡ names_at g dump.now n.0 o.0 }
{
    g.holds(dump.len(), n) && tags_at(dump, g, n).object % Tags::IDS == o.0
}
