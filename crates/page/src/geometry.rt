// How a dump is read: its layout and how many pages a block has. And what a dump measures by that.
ghost use Rattle.std.specs.Prelude.{◌≡◌, true};
ghost use Rattle.page.specs.Layouts.{layout_of, roomy};
ghost use Rattle.page.specs.Lengths.{geometry_of, block_fits, length_fits, whole_blocks, page_in, opened_of, placed_of};

use crate::layout::Layout;
use crate::number::PageNumber;
use crate::refusal::Refusal;

#[derive(Clone, Copy)]
pub struct Geometry {
    pub layout: Layout,
    // K, the pages of a block
    pub block: u32,
}

impl Geometry {
    // The most pages that a block has.
    pub const MOST_PAGES: u32 = 256;

    // Whether a block may have k pages; a line each, this and the next, with limits of their own.
    #[tactic(auto, unfolding(crate::specs::Lengths::block_fits))]
    pub fn block_fits(k: u32) -> bool
        ensures { result ≡ block_fits k }
    {
        k != 0 && k <= Geometry::MOST_PAGES
    }

    // Whether a dump may have this length.
    #[tactic(auto, unfolding(crate::specs::Lengths::length_fits))]
    pub fn length_fits(len: usize) -> bool
        ensures { result ≡ length_fits len }
    {
        len != 0 && len <= Layout::MOST_BYTES
    }

    // Whether a dump of this length divides into whole blocks.
    #[tactic(auto, unfolding(crate::specs::Lengths::whole_blocks))]
    pub(crate) fn divides(self, len: usize) -> bool
        requires layout_value { roomy self.layout ≡ true }
        requires block_value { block_fits self.block ≡ true }
        ensures { result ≡ whole_blocks self len }
    {
        let block = (self.block as usize) * self.layout.page_len();
        len % block == 0
    }

    // Whether page n lies in a dump of this length; where the layout has no room, nothing is reckoned with.
    #[tactic(auto, unfolding(crate::specs::Lengths::page_in))]
    pub fn holds(self, len: usize, n: PageNumber) -> bool
        ensures { result ≡ page_in self len n.0 }
    {
        if !self.layout.has_room() {
            return false;
        }
        let size = self.layout.page_len();
        (n.0 as usize) * size + size <= len
    }

    // What `opened` answers, by numbers, for short calls: numbers travel in registers, and what is written to memory in parts and copied as a
    // whole is waited for.
    #[tactic(auto, unfolding(crate::specs::Lengths::opened_of))]
    pub fn opened_of(
        data: u32,
        spare: u32,
        tag: u32,
        block: u32,
        len: usize,
    ) -> Result<u32, Refusal>
        ensures { result ≡ opened_of (geometry_of (layout_of «data» spare tag) block) len }
    {
        let layout = Layout { data, spare, tag };
        let g = Geometry { layout, block };
        if Layout::COUNT <= layout.number() {
            return Err(Refusal::BadLayout);
        }
        if !Geometry::block_fits(block) {
            return Err(Refusal::BadLayout);
        }
        if !Geometry::length_fits(len) {
            return Err(Refusal::BadLength);
        }
        if !g.divides(len) {
            return Err(Refusal::BadLength);
        }
        Ok((len / layout.page_len()) as u32)
    }

    // How many pages a dump of this length has, or why it is refused.
    pub fn opened(self, len: usize) -> Result<u32, Refusal>
        ensures { result ≡ opened_of self len }
    {
        let l = self.layout;
        Geometry::opened_of(l.data, l.spare, l.tag, self.block, len)
    }

    // Whether page n is in a dump of this length, or why not.
    #[tactic(auto, unfolding(crate::specs::Lengths::placed_of, crate::specs::Lengths::placed_in))]
    pub fn placed(self, len: usize, n: PageNumber) -> Result<(), Refusal>
        ensures { result ≡ placed_of self len n.0 }
    {
        let l = self.layout;
        let count = Geometry::opened_of(l.data, l.spare, l.tag, self.block, len)?;
        if count <= n.0 {
            return Err(Refusal::BadPage);
        }
        Ok(())
    }
}
