// The places of a file at which the reason of its bytes can change: its begin; where a header cuts; where a copy begins, where its bytes end and where
// its page does, which are one place if they fill it. A mark is such a place and the page that begins to matter there, if one does, in one number:
// first by its place.
ghost use Rattle.std.specs.Prelude.{◌≡◌, ◌+◌, ◌≤◌, ◌<◌, length};
ghost use Rattle.std.proofs.lemmas.List.Edits.{sets};
ghost use Rattle.page.specs.Numbers.{page_values};
ghost use Rattle.page.specs.Records.{record_at};
ghost use Rattle.chunk.specs.Takes.{seen_by};
ghost use Rattle.chunk.specs.Sizes.{size_of};
ghost use Rattle.chunk.specs.Lists.{in_front};
ghost use Rattle.why.specs.Marks.{most_data, places, mark_of, place_of, marked, marks_in, cut_marks, data_marks, marks_of, marks_to};

use chunk::cut::{Cut, cut_of};
use chunk::record::{base_of, file_size, order_of, sequence_of};
use chunk::scan::end_with;
use chunk::takes::{Takes, seen_at};
use page::geometry::Geometry;
use page::number::{ObjectId, PAGE_VALUES, PageNumber};
use page::record::{Data, Record};
use page::tags::names_object;

// How many places marks tell apart; no chunk has a byte behind them.
const PLACES: u64 = 0x100_0000_0000;

// The page of a mark at which none begins to matter: marks are words that the caller lends, and sorted as numbers, so that an Option has no place.
const NO_PAGE: u32 = 0x1F_FFFF;

// The mark of a place and a page. A packing of two numbers that rows and codes share would be no shorter than this line and the two below.
fn mark(place: u64, page: u32) -> u64
    requires place_lt_places { place < places }
    requires page_lt_page_values { page < page_values }
    ensures { result ≡ mark_of place page }
{
    place * PAGE_VALUES + u64::from(page)
}

// The place of a mark.
pub(crate) fn place_of(mark: u64) -> u64
    ensures { result ≡ place_of mark }
{
    mark / PAGE_VALUES
}

// The page that begins to matter at a mark, if one does.
#[tactic(auto, using(crate::proofs::Tests::cases))]
pub(crate) fn page_on(mark: u64) -> Option<PageNumber>
    ensures { result ≡ marked mark }
{
    let page = (mark % PAGE_VALUES) as u32;
    if page == NO_PAGE {
        return None;
    }
    Some(PageNumber(page))
}

// The marks that a page makes: a list of at most three, without a heap. Three words with a length beside them would be no plainer.
#[derive(Clone, Copy)]
pub(crate) enum Marks {
    Nothing,
    One(u64),
    Two(u64, u64),
    Three(u64, u64, u64),
}

impl Marks {
    // How many they are.
    fn count(self) -> u32
        ensures { result ≡ length (marks_in self) }
    {
        match self {
            Marks::Nothing => 0,
            Marks::One(_) => 1,
            Marks::Two(_, _) => 2,
            Marks::Three(_, _, _) => 3,
        }
    }

    // Puts them into words from one on. Answers the place behind them.
    fn put(self, rows: &mut [u64], at: usize) -> usize
        requires { at + length (marks_in self) ≤ length rows.old }
        ensures value { result ≡ at + length (marks_in self) }
        ensures rows_after { rows.new ≡ sets rows.old at (marks_in self) }
    {
        match self {
            Marks::Nothing => at,
            Marks::One(a) => {
                rows[at] = a;
                at + 1
            }
            Marks::Two(a, b) => {
                rows[at] = a;
                rows[at + 1] = b;
                at + 2
            }
            Marks::Three(a, b, c) => {
                rows[at] = a;
                rows[at + 1] = b;
                rows[at + 2] = c;
                at + 3
            }
        }
    }
}

// The mark of a cut that page p makes, if it makes one.
#[tactic(auto, using(crate::proofs::Tests::cases))]
fn cut_mark(p: PageNumber, cut: Cut) -> Marks
    requires { p.0 < page_values }
    ensures { marks_in result ≡ cut_marks p.0 cut }
{
    match cut {
        Some(a) if a < PLACES => Marks::One(mark(a, p.0)),
        _ => Marks::Nothing,
    }
}

// The marks of the data on page p: where it begins, where its bytes end if that is before its page does, and where its page ends.
#[tactic(auto, using(crate::proofs::Tests::cases))]
fn data_marks(data: u32, p: PageNumber, d: Data) -> Marks
    requires p_lt_page_values { p.0 < page_values }
    requires data_le_most_data { «data» ≤ most_data }
    ensures { marks_in result ≡ data_marks «data» p.0 d.chunk.0 d.count }
{
    if d.chunk.is_bad() {
        return Marks::Nothing;
    }
    let base = base_of(data, d.chunk);
    let begin = mark(base, p.0);
    let next = mark(base + u64::from(data), NO_PAGE);
    if data <= d.count {
        return Marks::Two(begin, next);
    }
    Marks::Three(begin, mark(base + u64::from(d.count), NO_PAGE), next)
}

// The marks that page p, which is this record, makes for the file of object o, whose newest header is page h.
#[tactic(auto, using(crate::proofs::Tests::cases))]
fn marks_of(data: u32, o: ObjectId, h: PageNumber, p: PageNumber, r: Record) -> Marks
    requires p_lt_page_values { p.0 < page_values }
    requires data_le_most_data { «data» ≤ most_data }
    ensures { marks_in result ≡ marks_of «data» o.0 h.0 p.0 r }
{
    match r {
        Record::Header(k) if k.object == o => cut_mark(p, cut_of(p == h, k)),
        Record::Data(d) if d.object == o => data_marks(data, p, d),
        _ => Marks::Nothing,
    }
}

// How many marks a file has, and its size.
#[derive(Clone, Copy)]
pub(crate) struct Measured {
    pub marks: u32,
    pub size: u64,
}

// How many marks the file of object o has, whose newest header is page h, and its size: both by one pass. It goes over the pages as `fill_marks` does;
// a closure for what is done at each would be as long as the two loops.
pub(crate) fn measure(
    dump: &[u8],
    g: Geometry,
    t: Takes,
    pages: u32,
    o: ObjectId,
    h: PageNumber,
) -> Measured
    requires pages_lt_page_values { pages < page_values }
    requires data_bound { g.layout.«data» ≤ most_data }
    ensures marks_value { result.marks ≡ length (marks_to (seen_by t (record_at g dump.now)) g.layout.«data» o.0 h.0 pages) }
    ensures size_value { result.size ≡ size_of (seen_by t (record_at g dump.now)) g.layout.«data» o.0 h.0 pages }
{
    let newest = seen_at(dump, g, t, h);
    let age = order_of(sequence_of(newest), h);
    let mut marks: u32 = 1;
    let mut end: u64 = 0;
    for i in 0..pages {
        let p = PageNumber(i);
        if !names_object(dump, g, p, o) {
            continue;
        }
        let r = seen_at(dump, g, t, p);
        marks += marks_of(g.layout.data, o, h, p, r).count();
        if let Record::Data(d) = r {
            end = end_with(end, g.layout.data, o, age, p, d);
        }
    }
    Measured {
        marks,
        size: u64::from(file_size(newest)).max(end),
    }
}

// Puts the marks of the file of object o, whose newest header is page h, in front of words that have room for them.
pub(crate) fn fill_marks(
    dump: &[u8],
    g: Geometry,
    t: Takes,
    pages: u32,
    o: ObjectId,
    h: PageNumber,
    rows: &mut [u64],
)
    requires pages_lt_page_values { pages < page_values }
    requires data_bound { g.layout.«data» ≤ most_data }
    requires pages_in_bounds { length (marks_to (seen_by t (record_at g dump.now)) g.layout.«data» o.0 h.0 pages) ≤ length rows.old }
    ensures { rows.new ≡ in_front (marks_to (seen_by t (record_at g dump.now)) g.layout.«data» o.0 h.0 pages) rows.old }
{
    rows[0] = mark(0, NO_PAGE);
    let mut at: usize = 1;
    for i in 0..pages {
        let p = PageNumber(i);
        if !names_object(dump, g, p, o) {
            continue;
        }
        let made = marks_of(g.layout.data, o, h, p, seen_at(dump, g, t, p));
        at = made.put(rows, at);
    }
}
