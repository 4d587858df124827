// The three kinds of number of document 01, which stand neither for each other nor for a count.
ghost use Rattle.std.specs.Prelude.{◌≡◌};
ghost use Rattle.page.specs.Numbers.{bad_object, bad_chunk, chunks_before, pages_before};

// The number of an object.
#[derive(Clone, Copy, PartialEq, Eq, PartialOrd, Ord)]
pub struct ObjectId(pub u32);

// The number of a chunk in its object, from 1.
#[derive(Clone, Copy, PartialEq, Eq, PartialOrd, Ord)]
pub struct ChunkNumber(pub u32);

// The number of a page in its dump, from 0.
#[derive(Clone, Copy, PartialEq, Eq, PartialOrd, Ord)]
pub struct PageNumber(pub u32);

// How many page numbers there are at most.
pub const PAGE_VALUES: u64 = 0x20_0000;

impl ObjectId {
    // The largest object id.
    pub const MOST: u32 = 0x0FFF_FFFF;

    // Whether no object has this id. That of a chunk has a limit of its own: one function of both would be no shorter than the line that it has.
    #[tactic(auto, unfolding(crate::specs::Numbers::bad_object))]
    pub fn is_bad(self) -> bool
        ensures { result ≡ bad_object self.0 }
    {
        self.0 == 0 || ObjectId::MOST < self.0
    }
}

impl ChunkNumber {
    // The largest chunk number.
    pub const MOST: u32 = 0xF_FFFF;

    // Whether no chunk has this number.
    #[tactic(auto, unfolding(crate::specs::Numbers::bad_chunk))]
    pub fn is_bad(self) -> bool
        ensures { result ≡ bad_chunk self.0 }
    {
        self.0 == 0 || ChunkNumber::MOST < self.0
    }

    // How many chunks stand before it; none before the first, nor before a number that no chunk has.
    pub fn chunks_before(self) -> u32
        ensures { result ≡ chunks_before self.0 }
    {
        self.0.saturating_sub(1)
    }
}

impl PageNumber {
    // How many pages stand before it.
    pub fn pages_before(self) -> u32
        ensures { result ≡ pages_before self.0 }
    {
        self.0
    }
}
