// How a record of an object stands, and the two words that tell it.
ghost use Rattle.std.specs.Prelude.{◌≡◌};
ghost use Rattle.records.specs.Rows.{kind_of, detail_of, standing_of};
ghost use Rattle.records.specs.Rows as rows;

use chunk::record::base_of;
use page::number::{ChunkNumber, PageNumber};
use sort::rows::{key_of, pack, value_of};

// The newest header, or an older one; data that is superseded by the newest copy of its chunk, which is on a page, or cut by the header on a page; data
// that holds bytes of the file, so many from the begin of its chunk on; or other data of an object that is no live file.
#[derive(Clone, Copy)]
pub enum Standing {
    NewestHeader,
    OlderHeader,
    Superseded(PageNumber),
    Cut(PageNumber),
    Holds(ChunkNumber, u32),
    NoFile,
}

// The numbers of the kinds, as C reads them in a row.
const NEWEST_HEADER: u32 = 1;

const OLDER_HEADER: u32 = 2;

const SUPERSEDED: u32 = 3;

const CUT: u32 = 4;

const HOLDS: u32 = 5;

const NO_FILE: u32 = 6;

impl Standing {
    // The number of its kind.
    pub fn kind(self) -> u32
        ensures { result ≡ kind_of self }
    {
        match self {
            Standing::NewestHeader => NEWEST_HEADER,
            Standing::OlderHeader => OLDER_HEADER,
            Standing::Superseded(_) => SUPERSEDED,
            Standing::Cut(_) => CUT,
            Standing::Holds(_, _) => HOLDS,
            Standing::NoFile => NO_FILE,
        }
    }

    // Its second word; 0 where there is nothing to tell, as C reads it.
    #[tactic(auto, using(crate::proofs::Tests::cases))]
    pub(crate) fn detail(self) -> u64
        ensures { result ≡ detail_of self }
    {
        match self {
            Standing::Superseded(q) | Standing::Cut(q) => pack(q.0, 0),
            Standing::Holds(c, valid) => pack(c.0, valid),
            _ => 0,
        }
    }

    // The standing that a row and its second word tell: of two words, so that no From gives it.
    #[tactic(auto, using(crate::proofs::Tests::cases), unfolding(crate::specs::Rows::standing_of))]
    pub fn of(row: u64, detail: u64) -> Standing
        ensures { result ≡ standing_of row detail }
    {
        match value_of(row) {
            NEWEST_HEADER => Standing::NewestHeader,
            OLDER_HEADER => Standing::OlderHeader,
            SUPERSEDED => Standing::Superseded(PageNumber(key_of(detail))),
            CUT => Standing::Cut(PageNumber(key_of(detail))),
            HOLDS => Standing::Holds(ChunkNumber(key_of(detail)), value_of(detail)),
            _ => Standing::NoFile,
        }
    }

    // The page that supersedes or cuts it; 0 where there is none, as in C.
    pub fn by(self) -> u32
        ensures { result ≡ rows.by_of self }
    {
        match self {
            Standing::Superseded(q) | Standing::Cut(q) => q.0,
            _ => 0,
        }
    }

    // Where the bytes begin that it holds, with so many data bytes to a page; 0 where it holds none, as in C.
    #[tactic(auto, using(crate::proofs::Tests::cases))]
    pub fn from(self, data: u32) -> u64
        ensures { result ≡ rows.from_of «data» self }
    {
        match self {
            Standing::Holds(c, _) => base_of(data, c),
            _ => 0,
        }
    }

    // Where they end; 0 where it holds none, as in C.
    #[tactic(auto, using(crate::proofs::Tests::cases))]
    pub fn until(self, data: u32) -> u64
        ensures { result ≡ rows.until_of «data» self }
    {
        match self {
            Standing::Holds(c, valid) => base_of(data, c) + (valid as u64),
            _ => 0,
        }
    }
}
