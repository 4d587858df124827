// The fields of a header page.
ghost use Rattle.std.specs.Prelude.{◌≡◌, ◌≤◌, length};
ghost use Rattle.page.specs.Layouts.{header_bytes};
ghost use Rattle.page.specs.Headers.{fields_of, text_place, text_length};

use crate::word::{half_at, long_at, word_at};

// The fields that are numbers, in the table's order.
#[derive(Clone, Copy)]
pub struct Fields {
    pub page_type: u32,
    pub parent: u32,
    pub unused1: u16,
    pub unused2: u16,
    pub mode: u32,
    pub uid: u32,
    pub gid: u32,
    pub accessed: u32,
    pub modified: u32,
    pub created: u32,
    pub file_size: u32,
    pub equivalent_id: u32,
    pub rdev: u32,
    pub win_created: u64,
    pub win_accessed: u64,
    pub win_modified: u64,
    pub inband_shadow: u32,
    pub inband_shrink: u32,
    pub size_high: u32,
    pub shadowed_id: u32,
    pub shrink: u32,
}

// The fields that are bytes; the header of C has a function for each.
#[derive(Clone, Copy)]
pub enum Text {
    Name,
    Alias,
    Reserved,
}

impl Fields {
    // Where each field stands.
    pub const TYPE: usize = 0x0;

    pub const PARENT: usize = 0x4;

    pub const UNUSED1: usize = 0x8;

    pub const NAME: usize = 0xA;

    pub const UNUSED2: usize = 0x10A;

    pub const MODE: usize = 0x10C;

    pub const UID: usize = 0x110;

    pub const GID: usize = 0x114;

    pub const ACCESSED: usize = 0x118;

    pub const MODIFIED: usize = 0x11C;

    pub const CREATED: usize = 0x120;

    pub const FILE_SIZE: usize = 0x124;

    pub const EQUIVALENT_ID: usize = 0x128;

    pub const ALIAS: usize = 0x12C;

    pub const RDEV: usize = 0x1CC;

    pub const WIN_CREATED: usize = 0x1D0;

    pub const WIN_ACCESSED: usize = 0x1D8;

    pub const WIN_MODIFIED: usize = 0x1E0;

    pub const INBAND_SHADOW: usize = 0x1E8;

    pub const INBAND_SHRINK: usize = 0x1EC;

    pub const SIZE_HIGH: usize = 0x1F0;

    pub const RESERVED: usize = 0x1F4;

    pub const SHADOWED_ID: usize = 0x1F8;

    pub const SHRINK: usize = 0x1FC;

    // The numbers of a header page. Of a slice of any length, where a From would promise them of each.
    #[tactic(auto, unfolding(crate::specs::Headers::fields_of))]
    pub(crate) fn of_page(page: &[u8]) -> Fields
        requires { header_bytes ≤ length page.now }
        ensures { result ≡ fields_of page.now }
    {
        Fields {
            page_type: word_at(page, Fields::TYPE),
            parent: word_at(page, Fields::PARENT),
            unused1: half_at(page, Fields::UNUSED1),
            unused2: half_at(page, Fields::UNUSED2),
            mode: word_at(page, Fields::MODE),
            uid: word_at(page, Fields::UID),
            gid: word_at(page, Fields::GID),
            accessed: word_at(page, Fields::ACCESSED),
            modified: word_at(page, Fields::MODIFIED),
            created: word_at(page, Fields::CREATED),
            file_size: word_at(page, Fields::FILE_SIZE),
            equivalent_id: word_at(page, Fields::EQUIVALENT_ID),
            rdev: word_at(page, Fields::RDEV),
            win_created: long_at(page, Fields::WIN_CREATED),
            win_accessed: long_at(page, Fields::WIN_ACCESSED),
            win_modified: long_at(page, Fields::WIN_MODIFIED),
            inband_shadow: word_at(page, Fields::INBAND_SHADOW),
            inband_shrink: word_at(page, Fields::INBAND_SHRINK),
            size_high: word_at(page, Fields::SIZE_HIGH),
            shadowed_id: word_at(page, Fields::SHADOWED_ID),
            shrink: word_at(page, Fields::SHRINK),
        }
    }
}

impl Text {
    // Where the field begins in a page.
    pub fn place(self) -> usize
        ensures { result ≡ text_place self }
    {
        match self {
            Text::Name => Fields::NAME,
            Text::Alias => Fields::ALIAS,
            Text::Reserved => Fields::RESERVED,
        }
    }

    // How many bytes the field has.
    pub fn length(self) -> usize
        ensures { result ≡ text_length self }
    {
        match self {
            Text::Name => 256,
            Text::Alias => 160,
            Text::Reserved => 4,
        }
    }
}
