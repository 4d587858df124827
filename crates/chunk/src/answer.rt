// What the lookups of an object answer, with the records visited.
ghost use Rattle.std.specs.Prelude.{◌≡◌};
ghost use Rattle.chunk.specs.Looked.{shown_in, visits_in};

use page::number::PageNumber;
use page::refusal::{Refusal, Short};

// An answer, and how many records were visited for it.
#[derive(Clone, Copy)]
pub struct Visited<T> {
    pub answer: T,
    pub visits: u32,
}

impl From<Refusal> for Visited<Refusal> {
    ghost from_gives = { λ r v. v ≡ record { answer = r; visits = 0 } };

    fn from(answer: Refusal) -> Visited<Refusal>
        ensures { result ≡ record { answer = answer; visits = 0 } }
    {
        Visited { answer, visits: 0 }
    }
}

impl From<Refusal> for Visited<Short<u32>> {
    ghost from_gives = { λ r v. v ≡ record { answer = record { refusal = r; need = 0 }; visits = 0 } };

    fn from(refusal: Refusal) -> Visited<Short<u32>>
        ensures { result ≡ record { answer = record { refusal = refusal; need = 0 }; visits = 0 } }
    {
        Visited {
            answer: Short { refusal, need: 0 },
            visits: 0,
        }
    }
}

impl From<Visited<Refusal>> for Visited<Short<u32>> {
    ghost from_gives = { λ r v. v ≡ record { answer = record { refusal = r.answer; need = 0 }; visits = r.visits } };

    fn from(refused: Visited<Refusal>) -> Visited<Short<u32>>
        ensures { result ≡ record { answer = record { refusal = refused.answer; need = 0 }; visits = refused.visits } }
    {
        Visited {
            answer: Short {
                refusal: refused.answer,
                need: 0,
            },
            visits: refused.visits,
        }
    }
}

// The newest header of a live file; or why the object is none.
pub type File = Result<Visited<PageNumber>, Visited<Refusal>>;

// The size of a file.
pub type Sized = Result<Visited<u64>, Visited<Refusal>>;

// A chunk of a file: the page that holds its copy with the valid and the shown length, or a hole with the shown length; each with the records
// visited.
#[derive(Clone, Copy)]
pub enum Chunk {
    Copy {
        page: PageNumber,
        valid: u32,
        shown: u32,
        visits: u32,
    },
    Hole {
        shown: u32,
        visits: u32,
    },
}

impl Chunk {
    // How many of its bytes the file shows.
    pub fn shown(self) -> u32
        ensures { result ≡ shown_in self }
    {
        match self {
            Chunk::Copy { shown, .. } | Chunk::Hole { shown, .. } => shown,
        }
    }

    // How many records were visited for it.
    pub fn visits(self) -> u32
        ensures { result ≡ visits_in self }
    {
        match self {
            Chunk::Copy { visits, .. } | Chunk::Hole { visits, .. } => visits,
        }
    }
}

// A chunk of a file, or why there is none.
pub type Looked = Result<Chunk, Visited<Short<u32>>>;

// How many ids of live objects were written.
pub type Listed = Result<u32, Short<u32>>;
