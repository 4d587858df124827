// Layouts: data size P, spare size S and tag offset T.
ghost use Rattle.std.specs.Prelude.{◌≡◌, ◌<◌, ◌^◌};
ghost use Rattle.page.specs.Layouts.{layouts, layout_at, by_number, by_sizes, has_sizes, number_of, number_of_sizes, page_len, tag_place, roomy};

use crate::fields::Fields;
use crate::refusal::Refusal;

#[derive(Clone, Copy)]
pub struct Layout {
    pub data: u32,
    pub spare: u32,
    pub tag: u32,
}

impl Layout {
    // How many layouts the table has.
    pub const COUNT: u32 = 13;
    // The most bytes that a dump has.
    pub const MOST_BYTES: usize = 1_073_741_824;
    // The bytes of a page's tags.
    pub const TAG_BYTES: usize = 16;
    // The bytes of a header, whose last field is the shrink word.
    pub const HEADER_BYTES: u32 = (Fields::SHRINK as u32) + 4;

    // The rows of the table: data size, spare size and tag offset. It is read where it lies, by a reference: by value it would be laid out on the stack at
    // each read.
    const TABLE: [(u16, u16, u16); 13] = [
        (2048, 64, 0),
        (2048, 64, 2),
        (2048, 64, 30),
        (4096, 128, 0),
        (4096, 128, 2),
        (4096, 128, 30),
        (512, 16, 0),
        (8192, 224, 0),
        (8192, 224, 2),
        (8192, 224, 30),
        (16384, 448, 0),
        (16384, 448, 2),
        (16384, 448, 30),
    ];

    // The layout with the number n in the table.
    #[tactic(auto, unfolding(crate::specs::Layouts::layout_at, crate::specs::Layouts::data_sizes, crate::specs::Layouts::spare_sizes, crate::specs::Layouts::tag_offsets))]
    pub(crate) fn row(n: u32) -> Layout
        requires { n < layouts }
        ensures { result ≡ layout_at n }
    {
        let (data, spare, tag) = (&Layout::TABLE)[n as usize];
        Layout {
            data: u32::from(data),
            spare: u32::from(spare),
            tag: u32::from(tag),
        }
    }

    // The layout with the number n in the table, if it has one.
    #[tactic(auto, unfolding(crate::specs::Layouts::by_number))]
    pub fn numbered(n: u32) -> Result<Layout, Refusal>
        ensures { result ≡ by_number n }
    {
        if Layout::COUNT <= n {
            return Err(Refusal::BadLayout);
        }
        Ok(Layout::row(n))
    }

    // The layout with these sizes and this tag offset, if the table has it: of three numbers, so that no TryFrom gives it, nor the one above, which has
    // a number for its name.
    #[tactic(auto, unfolding(crate::specs::Layouts::by_sizes))]
    pub fn sized(data: u32, spare: u32, tag: u32) -> Result<Layout, Refusal>
        ensures { result ≡ by_sizes «data» spare tag }
    {
        Layout::numbered(Layout::number_of(data, spare, tag))
    }

    // The number in the table of a layout, or 13 where the table lacks it.
    pub fn number(self) -> u32
        ensures { result ≡ number_of self }
    {
        Layout::number_of(self.data, self.spare, self.tag)
    }

    // Whether this is the layout of these sizes and this tag offset.
    #[tactic(auto, unfolding(crate::specs::Layouts::has_sizes))]
    fn is(self, data: u32, spare: u32, tag: u32) -> bool
        ensures { result ≡ has_sizes «data» spare tag self }
    {
        self.data == data && self.spare == spare && self.tag == tag
    }

    // The first number in the table of a layout of these sizes and this tag offset, or 13, by which C is told that there is none.
    #[tactic(auto, unfolding(crate::specs::Layouts::number_of_sizes))]
    fn number_of(data: u32, spare: u32, tag: u32) -> u32
        ensures { result ≡ number_of_sizes «data» spare tag }
    {
        for n in 0..Layout::COUNT {
            if Layout::row(n).is(data, spare, tag) {
                return n;
            }
        }
        Layout::COUNT
    }

    // The length of a page.
    pub fn page_len(self) -> usize
        ensures value { result ≡ page_len self }
        ensures upper_bound { result < 2 ^ 33 }
    {
        (self.data as usize) + (self.spare as usize)
    }

    // Where the tags of a page begin.
    pub fn tag_place(self) -> usize
        ensures { result ≡ tag_place self }
    {
        (self.data as usize) + (self.tag as usize)
    }

    // Whether a header has room in the data and the tags in the spare, and a page is no longer than a dump may be.
    #[tactic(auto, unfolding(crate::specs::Layouts::roomy))]
    pub fn has_room(self) -> bool
        ensures { result ≡ roomy self }
    {
        Layout::HEADER_BYTES <= self.data
            && (self.tag as usize) + Layout::TAG_BYTES <= (self.spare as usize)
            && self.page_len() <= Layout::MOST_BYTES
    }
}
