// How many pages of a dump are of each kind.
ghost use Rattle.std.specs.Prelude.{◌≡◌, ◌<◌, ◌^◌};
ghost use Rattle.page.specs.Counts.{counts_below, counted_of, with_kind, AtMost};

use crate::geometry::Geometry;
use crate::kind::{Kind, kind_at};
use crate::number::PageNumber;
use crate::refusal::Refusal;

#[derive(Clone, Copy, Default)]
pub struct Counts {
    pub blank: u32,
    pub foreign: u32,
    pub damaged: u32,
    pub headers: u32,
    pub data: u32,
}

impl Counts {
    // A page of kind k counted too.
    fn with(mut self, k: Kind) -> Counts
        requires { AtMost (2 ^ 31) self }
        ensures { result ≡ with_kind self k }
    {
        match k {
            Kind::Blank => self.blank += 1,
            Kind::Foreign => self.foreign += 1,
            Kind::Damaged => self.damaged += 1,
            Kind::Header(_) => self.headers += 1,
            Kind::Data(_) => self.data += 1,
        }
        self
    }
}

// The counts of the first pages of a dump.
fn count_pages(dump: &[u8], g: Geometry, pages: u32) -> Counts
    requires { pages < 2 ^ 31 }
    ensures { result ≡ counts_below g dump.now pages }
{
    let mut c = Counts::default();
    for i in 0..pages {
        c = c.with(kind_at(dump, g, PageNumber(i)));
    }
    c
}

// The five counts of a dump.
#[tactic(auto, unfolding(crate::specs::Counts::counted_of, crate::specs::Counts::counted_in))]
pub fn count_kinds(dump: &[u8], g: Geometry) -> Result<Counts, Refusal>
    ensures { result ≡ counted_of g dump.now }
{
    let pages = g.opened(dump.len())?;
    Ok(count_pages(dump, g, pages))
}
