// What the lookups of an object answer, whether on a dump alone or on an index.
ghost use Rattle.std.specs.Prelude.{◌≡◌};
ghost use Rattle.capi.specs.Lookups.{size_answer, chunk_answer, place_of, place_answer, list_answer, tally_answer, table_answer, copies_answer, copy_answer, added_answer, run_answer};

use chunk::answer::{Chunk, Listed, Looked, Sized};
use file::copies::Copied;
use file::copy::Copy;
use file::table::Tabled;
use index::runs::Run;
use page::geometry::Geometry;
use page::number::PageNumber;
use page::refusal::Refusal;

// The size of a file, and the records visited.
#[repr(C)]
#[derive(Clone, Copy, Default)]
pub struct SizeAnswer {
    pub refusal: u32,
    pub visits: u32,
    pub size: u64,
}

// A chunk of a file: 1 in `copy` and the page that holds it, or a hole; the valid and the shown length. Beside ShortBuffer `need` is the
// length needed, and 0 else.
#[repr(C)]
#[derive(Clone, Copy, Default)]
pub struct ChunkAnswer {
    pub refusal: u32,
    pub visits: u32,
    pub need: u32,
    pub copy: u32,
    pub page: u32,
    pub valid: u32,
    pub shown: u32,
}

// A part of the dump: where it begins and how long it is. An empty one is at 0.
#[repr(C)]
#[derive(Clone, Copy, Default)]
pub struct PlaceAnswer {
    pub offset: usize,
    pub length: usize,
}

// How many ids a listing wrote. Beside ShortBuffer `need` is how many words it needs, and 0 else.
#[repr(C)]
#[derive(Clone, Copy, Default)]
pub struct ListAnswer {
    pub refusal: u32,
    pub need: u32,
    pub count: u32,
}

// The size of a file and how many rows its table has. Beside ShortBuffer `need` is how many words it needs, and 0 else.
#[repr(C)]
#[derive(Clone, Copy, Default)]
pub struct TableAnswer {
    pub refusal: u32,
    pub need: u32,
    pub size: u64,
    pub rows: u32,
}

// The size of a file and how many rows its copies are; 1 in `damaged` if a damaged link keeps one of its chunks from being found. Beside
// ShortBuffer `need` is how many words it needs, and 0 else.
#[repr(C)]
#[derive(Clone, Copy, Default)]
pub struct CopiesAnswer {
    pub refusal: u32,
    pub count: u32,
    pub size: u64,
    pub need: u32,
    pub damaged: u32,
}

// The copy of a chunk: the page that holds it, and how many of its bytes are valid.
#[repr(C)]
#[derive(Clone, Copy, Default)]
pub struct CopyAnswer {
    pub chunk: u32,
    pub page: u32,
    pub valid: u32,
}

// How a run of additions ended: with 0 all were done, else the addition of this page was refused, and those before it stand.
#[repr(C)]
#[derive(Clone, Copy, Default)]
pub struct RunAnswer {
    pub refusal: u32,
    pub page: u32,
}

// A number of objects.
#[repr(C)]
#[derive(Clone, Copy, Default)]
pub struct TallyAnswer {
    pub refusal: u32,
    pub count: u32,
}

impl From<Sized> for SizeAnswer {
    ghost from_gives = { λ a r. r ≡ size_answer a };

    fn from(answer: Sized) -> SizeAnswer
        ensures { result ≡ size_answer answer }
    {
        match answer {
            Err(e) => SizeAnswer {
                refusal: e.answer.number(),
                visits: e.visits,
                ..SizeAnswer::default()
            },
            Ok(size) => SizeAnswer {
                visits: size.visits,
                size: size.answer,
                ..SizeAnswer::default()
            },
        }
    }
}

impl From<Looked> for ChunkAnswer {
    ghost from_gives = { λ a r. r ≡ chunk_answer a };

    fn from(answer: Looked) -> ChunkAnswer
        ensures { result ≡ chunk_answer answer }
    {
        match answer {
            Err(e) => ChunkAnswer {
                refusal: e.answer.refusal.number(),
                visits: e.visits,
                need: e.answer.need,
                ..ChunkAnswer::default()
            },
            Ok(Chunk::Hole { shown, visits }) => ChunkAnswer {
                visits,
                shown,
                ..ChunkAnswer::default()
            },
            Ok(chunk @ Chunk::Copy { page, valid, .. }) => ChunkAnswer {
                visits: chunk.visits(),
                copy: 1,
                page: page.0,
                valid,
                shown: chunk.shown(),
                ..ChunkAnswer::default()
            },
        }
    }
}

// Where the first bytes of page p stand in a dump of this length; nowhere where the page is not in the dump or has not so many.
pub(crate) fn place_of(g: Geometry, len: usize, p: PageNumber, valid: u32) -> PlaceAnswer
    ensures { result ≡ place_of g len p.0 valid }
{
    if !g.holds(len, p) || g.layout.data < valid {
        return PlaceAnswer::default();
    }
    PlaceAnswer {
        offset: (p.0 as usize) * g.layout.page_len(),
        length: valid as usize,
    }
}

// Where in a dump of this length the valid bytes of a chunk that was looked up stand; nowhere for a hole or a refusal.
#[tactic(auto, unfolding(crate::specs::Lookups::place_answer))]
pub(crate) fn place_answer(g: Geometry, len: usize, a: Looked) -> PlaceAnswer
    ensures { result ≡ place_answer g len a }
{
    match a {
        Ok(Chunk::Copy { page, valid, .. }) => place_of(g, len, page, valid),
        _ => PlaceAnswer::default(),
    }
}

impl From<Listed> for ListAnswer {
    ghost from_gives = { λ a r. r ≡ list_answer a };

    fn from(answer: Listed) -> ListAnswer
        ensures { result ≡ list_answer answer }
    {
        match answer {
            Err(e) => ListAnswer {
                refusal: e.refusal.number(),
                need: e.need,
                ..ListAnswer::default()
            },
            Ok(count) => ListAnswer {
                count,
                ..ListAnswer::default()
            },
        }
    }
}

impl From<Tabled> for TableAnswer {
    ghost from_gives = { λ a r. r ≡ table_answer a };

    fn from(answer: Tabled) -> TableAnswer
        ensures { result ≡ table_answer answer }
    {
        match answer {
            Err(e) => TableAnswer {
                refusal: e.refusal.number(),
                need: e.need,
                ..TableAnswer::default()
            },
            Ok(table) => TableAnswer {
                size: table.size,
                rows: table.rows,
                ..TableAnswer::default()
            },
        }
    }
}

impl From<Copied> for CopiesAnswer {
    ghost from_gives = { λ a r. r ≡ copies_answer a };

    fn from(answer: Copied) -> CopiesAnswer
        ensures { result ≡ copies_answer answer }
    {
        match answer {
            Err(e) => CopiesAnswer {
                refusal: e.refusal.number(),
                need: e.need,
                ..CopiesAnswer::default()
            },
            Ok(copies) => CopiesAnswer {
                count: copies.count,
                size: copies.size,
                damaged: copies.damaged as u32,
                ..CopiesAnswer::default()
            },
        }
    }
}

impl From<Copy> for CopyAnswer {
    ghost from_gives = { λ c r. r ≡ copy_answer c };

    fn from(copy: Copy) -> CopyAnswer
        ensures { result ≡ copy_answer copy }
    {
        CopyAnswer {
            chunk: copy.chunk,
            page: copy.page,
            valid: copy.valid,
        }
    }
}

impl From<Result<u32, Refusal>> for TallyAnswer {
    ghost from_gives = { λ a r. r ≡ tally_answer a };

    fn from(answer: Result<u32, Refusal>) -> TallyAnswer
        ensures { result ≡ tally_answer answer }
    {
        match answer {
            Err(r) => TallyAnswer {
                refusal: r.number(),
                ..TallyAnswer::default()
            },
            Ok(count) => TallyAnswer {
                count,
                ..TallyAnswer::default()
            },
        }
    }
}

// The number of a refused start or addition; 0 where it was done.
pub(crate) fn added_answer(added: Result<(), Refusal>) -> u32
    ensures { result ≡ added_answer added }
{
    match added {
        Err(r) => r.number(),
        Ok(()) => 0,
    }
}

impl From<Run> for RunAnswer {
    ghost from_gives = { λ a r. r ≡ run_answer a };

    fn from(answer: Run) -> RunAnswer
        ensures { result ≡ run_answer answer }
    {
        match answer {
            Err(e) => RunAnswer {
                refusal: e.refusal.number(),
                page: e.page.0,
            },
            Ok(()) => RunAnswer::default(),
        }
    }
}
