// Where the words of the index stand: those of the whole index, then four for each page, its link and three of the table of objects.
// The link of a page is 0 where the page has not been added, 1 where its object has no older record, and q + 2 where that is page q.
// The words are lent by the caller, who knows how many they are (include/): so links and keys are words, and 0 stands for none.
ghost use Rattle.std.specs.Prelude.{◌≡◌, ◌++◌, ◌<◌, ◌^◌, min, length, set, replicate, drop};
ghost use Rattle.index.specs.Cells.{cells_for, slots_for, word, link_at, table_at, key_at, first_at, seed_at, seed_of, marked};

use page::number::PageNumber;

// The words for the whole index.
pub const SHARED: usize = 16;
// The words of a page.
pub const PER_PAGE: usize = 4;
// Where the seed stands.
const SEED: usize = 0;
// The link that leads nowhere, of a page that has been added.
pub(crate) const LAST: u32 = 1;
// Links below this lead nowhere; from it on they lead to page 0, page 1 and so on.
pub(crate) const LINKS: u32 = 2;

// How many words an index of so many pages has.
pub fn cells_for(pages: u32) -> usize
    ensures { result ≡ cells_for pages }
{
    SHARED + PER_PAGE * (pages as usize)
}

// Where the link of page p stands.
pub fn link_at(p: PageNumber) -> usize
    ensures { result ≡ link_at p.0 }
{
    SHARED + PER_PAGE * (p.0 as usize)
}

// The link of page p; 0, which leads nowhere, where there are not so many words: a link is a word as it is stored.
pub fn link_of(cells: &[u32], p: PageNumber) -> u32
    ensures { result ≡ word cells.now (link_at p.0) }
{
    cells.get(link_at(p)).copied().unwrap_or(0)
}

// The seed; 0, a seed too, where there are no words.
pub(crate) fn seed_of(cells: &[u32]) -> u32
    ensures { result ≡ seed_of cells.now }
{
    cells.get(SEED).copied().unwrap_or(0)
}

// Stores the seed.
pub(crate) fn put_seed(cells: &mut [u32], seed: u32)
    requires { seed_at < length cells.old }
    ensures { cells.new ≡ set cells.old seed_at seed }
{
    cells[SEED] = seed;
}

// How many slots an index of so many pages has.
pub(crate) fn slots_for(pages: u32) -> usize
    ensures { result ≡ slots_for pages }
{
    (pages as usize) + (pages as usize) / 2
}

// Where a word of the table of objects stands.
#[tactic(auto, unfolding(crate::specs::Cells::table_at))]
fn table_at(u: usize) -> usize
    requires { u < 2 ^ 35 }
    ensures value { result ≡ table_at u }
    ensures upper_bound { result < 2 ^ 40 }
{
    SHARED + 1 + u + u / 3
}

// Where the key of slot s stands: 0 where the slot is free, else an object's id.
pub(crate) fn key_at(s: usize) -> usize
    requires { s < 2 ^ 33 }
    ensures value { result ≡ key_at s }
    ensures upper_bound { result < 2 ^ 40 }
{
    table_at(2 * s)
}

// Where the link to the newest record of slot s's object stands.
pub(crate) fn first_at(s: usize) -> usize
    requires { s < 2 ^ 33 }
    ensures value { result ≡ first_at s }
    ensures upper_bound { result < 2 ^ 40 }
{
    table_at(2 * s + 1)
}

// The link of an added page that leads where a link does.
pub(crate) fn marked_link(link: u32) -> u32
    ensures { result ≡ marked link }
{
    link.max(LAST)
}

// Makes the first words 0: so many, or all where they are fewer. The end is no length of the words: those behind it are kept.
pub fn clear(words: &mut [u32], end: usize)
    ensures { words.new ≡ replicate (min end (length words.old)) 0 ++ drop (min end (length words.old)) words.old }
{
    let stop = end.min(words.len());
    words[..stop].fill(0);
}
