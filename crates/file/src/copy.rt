// A copy of a chunk that a file shows, packed into one number of 64 bits: first by its chunk, then by its page, then by its valid length.
ghost use Rattle.std.specs.Prelude.{◌≡◌};
ghost use Rattle.file.specs.Copies.{Fits, packed_copy, copy_of};

use page::number::PAGE_VALUES;

// The chunk, the page that holds its copy, and how many bytes of that are valid.
#[derive(Clone, Copy)]
pub struct Copy {
    pub chunk: u32,
    pub page: u32,
    pub valid: u32,
}

// How many valid lengths a row tells apart.
const VALID_VALUES: u64 = 0x8000;

impl Copy {
    // The number of a copy. No From: only a copy that fits is packed.
    pub(crate) fn packed(self) -> u64
        requires { Fits self }
        ensures { result ≡ packed_copy self }
    {
        (u64::from(self.chunk) * PAGE_VALUES + u64::from(self.page)) * VALID_VALUES
            + u64::from(self.valid)
    }

    // The copy of a number; named as its way back.
    pub fn of(row: u64) -> Copy
        ensures { result ≡ copy_of row }
    {
        let place = row / VALID_VALUES;
        Copy {
            chunk: (place / PAGE_VALUES) as u32,
            page: (place % PAGE_VALUES) as u32,
            valid: (row % VALID_VALUES) as u32,
        }
    }
}
