// The five counts of a dump.
ghost use Rattle.std.specs.Prelude.{◌≡◌};
ghost use Rattle.capi.specs.Layouts.{geometry_at};
ghost use Rattle.page.specs.Counts.{counted_of};
ghost use Rattle.capi.specs.Counts.{counts_answer};

use crate::layout::{Geometry, geometry_at};
use page::count::{Counts, count_kinds};
use page::refusal::Refusal;

#[repr(C)]
#[derive(Clone, Copy, Default)]
pub struct CountsAnswer {
    pub refusal: u32,
    pub blank: u32,
    pub foreign: u32,
    pub damaged: u32,
    pub headers: u32,
    pub data: u32,
}

impl From<Result<Counts, Refusal>> for CountsAnswer {
    ghost from_gives = { λ a r. r ≡ counts_answer a };

    fn from(answer: Result<Counts, Refusal>) -> CountsAnswer
        ensures { result ≡ counts_answer answer }
    {
        match answer {
            Err(r) => CountsAnswer {
                refusal: r.number(),
                ..CountsAnswer::default()
            },
            Ok(n) => CountsAnswer {
                refusal: 0,
                blank: n.blank,
                foreign: n.foreign,
                damaged: n.damaged,
                headers: n.headers,
                data: n.data,
            },
        }
    }
}

// How many pages of a dump are of each kind.
pub fn lohenarr_counts(dump: &[u8], geometry: Geometry) -> CountsAnswer
    ensures { result ≡ counts_answer (counted_of (geometry_at geometry) dump.now) }
{
    count_kinds(dump, geometry_at(geometry)).into()
}
