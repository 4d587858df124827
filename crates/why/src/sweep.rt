// The spans of a file, by a sweep over its marks in order: each mark takes in the page that begins to matter there, and behind the last mark of a place
// all that decides the reason there has been taken in. Between two places nothing changes.
ghost use Rattle.std.specs.Prelude.{◌≡◌, ◌<◌, length, drop};
ghost use Rattle.page.specs.Records.{record_at};
ghost use Rattle.sort.specs.Arranged.{Every};
ghost use Rattle.chunk.specs.Takes.{seen_by};
ghost use Rattle.why.specs.Codes.{code_values, row_of};
ghost use Rattle.why.specs.Marks.{places, place_of};
ghost use Rattle.why.specs.Reasons.{held_by};
ghost use Rattle.why.specs.Sweeps.{nothing_seen, seen_with, taken, reason_seen, goes_on, swept, filled};

use crate::marks::{page_on, place_of};
use crate::reason::Reason;
use chunk::record::{count_of, order_of};
use chunk::scan::{Newest, newer};
use chunk::takes::{Takes, seen_at};
use page::geometry::Geometry;
use page::number::{ChunkNumber, PageNumber};
use page::record::Record;

// What has been taken in: the newest header that cuts, and the newest copy of the last chunk.
#[derive(Clone, Copy)]
pub(crate) struct Seen {
    pub cut: Newest,
    pub chunk: ChunkNumber,
    pub copy: Newest,
}

// How many codes a row tells apart.
pub(crate) const CODE_VALUES: u64 = 0x100_0000;

// The row of a span that begins at a place with a reason of this code: a packing of its own width, no shorter as one function with `mark`.
fn row(place: u64, code: u64) -> u64
    requires place_lt_places { place < places }
    requires code_lt_code_values { code < code_values }
    ensures { result ≡ row_of place code }
{
    place * CODE_VALUES + code
}

// What the copy on page q gives at place x, where nothing cuts it: held, or ended by its byte count.
#[tactic(auto, using(crate::proofs::Tests::cases))]
fn held_by(dump: &[u8], g: Geometry, t: Takes, q: PageNumber, x: u64) -> Reason
    requires { 0 < g.layout.«data» }
    ensures { result ≡ held_by (seen_by t (record_at g dump.now)) g.layout.«data» q.0 x }
{
    let at = (x % u64::from(g.layout.data)) as u32;
    if count_of(seen_at(dump, g, t, q)) <= at {
        return Reason::Count(q);
    }
    Reason::Held(q, at)
}

impl Seen {
    // Takes in page p, which is this record.
    #[tactic(auto, using(crate::proofs::Tests::cases))]
    fn with(self, p: PageNumber, r: Record) -> Seen
        ensures { result ≡ seen_with self p.0 r }
    {
        match r {
            Record::Other => self,
            Record::Header(k) => Seen {
                cut: newer(self.cut, p, order_of(k.sequence, p)),
                ..self
            },
            Record::Data(d) => {
                let age = order_of(d.sequence, p);
                let other = if d.chunk == self.chunk {
                    self.copy
                } else {
                    None
                };
                Seen {
                    chunk: d.chunk,
                    copy: newer(other, p, age),
                    ..self
                }
            }
        }
    }

    // Takes in the page of a mark, if it has one.
    #[tactic(auto, using(crate::proofs::Tests::cases))]
    fn taking(self, dump: &[u8], g: Geometry, t: Takes, mark: u64) -> Seen
        ensures { result ≡ taken (seen_by t (record_at g dump.now)) self mark }
    {
        match page_on(mark) {
            None => self,
            Some(p) => self.with(p, seen_at(dump, g, t, p)),
        }
    }

    // The reason at place x, where all up to there has been taken in.
    #[tactic(auto, using(crate::proofs::Tests::cases), unfolding(crate::specs::Sweeps::reason_seen))]
    fn reason(self, dump: &[u8], g: Geometry, t: Takes, x: u64) -> Reason
        requires data_nonzero { 0 < g.layout.«data» }
        requires x_lt_places { x < places }
        ensures { result ≡ reason_seen (seen_by t (record_at g dump.now)) g.layout.«data» self x }
    {
        let Some(copy) = self.copy else {
            return Reason::NoCopy;
        };
        if u64::from(self.chunk.0) != x / u64::from(g.layout.data) + 1 {
            return Reason::NoCopy;
        }
        match self.cut {
            Some(cut) if copy.age < cut.age => Reason::Cut(cut.page),
            _ => held_by(dump, g, t, copy.page, x),
        }
    }
}

// Whether mark j, if there is one, is at place x too.
#[tactic(auto, using(crate::proofs::Tests::cases))]
fn goes_on(marks: &[u64], j: usize, x: u64) -> bool
    ensures { result ≡ goes_on x (drop j marks.now) }
{
    j < marks.len() && place_of(marks[j]) == x
}

// Of marks in order, makes the rows of the spans of a file of this size in their place, and clears the rest of their room. Answers how many they are.
pub(crate) fn sweep(dump: &[u8], g: Geometry, t: Takes, size: u64, rows: &mut [u64]) -> usize
    requires data_nonzero { 0 < g.layout.«data» }
    requires every { Every (λ m. place_of m < places) rows.old }
    ensures value { result ≡ length (swept (seen_by t (record_at g dump.now)) g.layout.«data» size nothing_seen 0 rows.old) }
    ensures rows_after { rows.new ≡ filled (swept (seen_by t (record_at g dump.now)) g.layout.«data» size nothing_seen 0 rows.old) (length rows.old) }
{
    let mut seen = Seen {
        cut: None,
        chunk: ChunkNumber(0),
        copy: None,
    };
    let mut last: u64 = 0;
    let mut at: usize = 0;
    for j in 0..rows.len() {
        let mark = rows[j];
        let x = place_of(mark);
        seen = seen.taking(dump, g, t, mark);
        if goes_on(rows, j + 1, x) || size <= x {
            continue;
        }
        let code = seen.reason(dump, g, t, x).code();
        if code == last {
            continue;
        }
        rows[at] = row(x, code);
        at += 1;
        last = code;
    }
    rows[at..].fill(0);
    at
}
