// Where the ways up of all objects lead, found for all at once: each round doubles the steps that the words know of.
ghost use Rattle.std.specs.Prelude.{◌≤◌, ◌<◌, ◌≡◌, length, get_or};
ghost use Rattle.sort.specs.Packed.{value_of};
ghost use Rattle.tree.specs.Climbs.{kind_number, kind_by, kind_in, code_places, IsCode, FirstWays, SomeWays, Raised, Doubled, Ways, TellsListed, reason_in};
ghost use Rattle.tree.specs.Heads.{Heads};
ghost use Rattle.tree.specs.Objects.{stand_by, says_by};
ghost use Rattle.sort.specs.Search.{Sorted};

use crate::objects::{MOST_DEPTH, ROOT, is_standing, parent_in};
use crate::reason::Reason;
use crate::search::find;
use chunk::record::is_gone;
use chunk::takes::{Takes, seen_at};
use page::geometry::Geometry;
use page::number::PageNumber;
use page::record::Record;
use sort::rows::{key_of, pack, value_of};

// How an object stands as a parent. A code has the place of an object's row and its kind in one number, since the words that codes are kept in are
// lent, and no more than there are headers.
#[derive(Clone, Copy)]
enum Kind {
    GoesOn,
    Deleted,
    NonDirectory,
    Missing,
}

impl Kind {
    // The number of a kind.
    fn number(self) -> u32
        ensures { result ≡ kind_number self }
    {
        self as u32
    }
}

// The kind in a code.
impl From<u32> for Kind {
    ghost from_gives = { λ code kind. kind_number kind ≡ kind_in code };

    fn from(code: u32) -> Kind
        ensures { kind_number result ≡ kind_in code }
    {
        match code % 4 {
            0 => Kind::GoesOn,
            1 => Kind::Deleted,
            2 => Kind::NonDirectory,
            _ => Kind::Missing,
        }
    }
}

// The codes of the root, and of an object that has no header: the kind of a missing one, and no place.
const TO_ROOT: u32 = 3;

const TO_NONE: u32 = 7;

// The kind of an object whose newest header this is.
#[tactic(auto, using(crate::proofs::Tests::cases))]
fn kind_of(r: Record) -> Kind
    ensures { kind_number result ≡ kind_by (stand_by r) }
{
    if is_gone(r) {
        return Kind::Deleted;
    }
    if is_standing(r) {
        return Kind::GoesOn;
    }
    Kind::NonDirectory
}

// The code of an object.
fn code_of(dump: &[u8], g: Geometry, t: Takes, heads: &[u64], o: u32) -> u32
    requires sorted { Sorted heads.now }
    requires heads_len_bound { length heads.now ≤ code_places }
    ensures { IsCode (says_by g dump.now t) heads.now o result }
{
    if o == ROOT {
        return TO_ROOT;
    }
    match find(heads, o) {
        None => TO_NONE,
        Some(i) => {
            let page = PageNumber(value_of(heads[i]));
            (i as u32) * 4 + kind_of(seen_at(dump, g, t, page)).number()
        }
    }
}

// Makes the words of all rows: each has gone the step to its object's parent.
fn fill_ways(dump: &[u8], g: Geometry, t: Takes, heads: &[u64], ways: &mut [u64])
    requires sorted { Sorted heads.now }
    requires heads_len_bound { length heads.now ≤ code_places }
    requires ways_len { length ways.old ≡ length heads.now }
    ensures { FirstWays (says_by g dump.now t) heads.now ways.new }
{
    for i in 0..heads.len() {
        let page = PageNumber(value_of(heads[i]));
        let parent = parent_in(seen_at(dump, g, t, page));
        let code = code_of(dump, g, t, heads, parent);
        ways[i] = pack(code, code);
    }
}

// A pass over the words: each whose way goes on takes over where the word that it has come to has come to.
fn double(ways: &mut [u64])
    requires { SomeWays ways.old }
    ensures { Doubled ways.old ways.new }
{
    for i in 0..ways.len() {
        let word = ways[i];
        let jump = value_of(word);
        let Kind::GoesOn = jump.into() else {
            continue;
        };
        let next = value_of(ways[(jump / 4) as usize]);
        ways[i] = pack(key_of(word), next);
    }
}

// Lets the words go up until each has ended, or has gone as many steps as there are pages. Each round doubles the steps, so that no range counts them.
fn climb(ways: &mut [u64], pages: u32)
    requires { SomeWays ways.old }
    ensures { Raised 0 pages ways.old ways.new }
{
    let mut steps: u64 = 0;
    while steps < pages as u64 {
        double(ways);
        steps = steps * 2 + 1;
    }
}

// Makes the words of all rows, each of which has ended or has gone as many steps as there are pages.
pub(crate) fn find_ways(
    dump: &[u8],
    g: Geometry,
    t: Takes,
    pages: u32,
    heads: &[u64],
    ways: &mut [u64],
)
    requires heads { Heads (says_by g dump.now t) pages heads.now }
    requires heads_len_bound { length heads.now ≤ code_places }
    requires ways_len { length ways.old ≡ length heads.now }
    ensures { Ways (says_by g dump.now t) pages heads.now (λ _. pages) ways.new }
{
    fill_ways(dump, g, t, heads, ways);
    climb(ways, pages);
}

// Whether the object of row i, if it is live and not the root, is in the first list: its way comes to the root in few enough steps.
pub(crate) fn is_listed(ways: &[u64], i: usize) -> bool
    requires some_ways { SomeWays ways.now }
    requires i_in_bounds { i < length ways.now }
    ensures { TellsListed ways.now i result }
{
    let mut code = key_of(ways[i]);
    for _step in 1..MOST_DEPTH {
        let Kind::GoesOn = code.into() else {
            return code == TO_ROOT;
        };
        code = key_of(ways[(code / 4) as usize]);
    }
    code == TO_ROOT
}

// The reason of the object of row i, by where its way has come to.
#[tactic(auto, using(crate::proofs::Tests::cases), unfolding(crate::specs::Climbs::reason_in))]
pub(crate) fn reason_at(ways: &[u64], i: usize) -> Reason
    requires { i < length ways.now }
    ensures { result ≡ reason_in i (value_of (get_or ways.now i 0)) }
{
    let code = value_of(ways[i]);
    if code == TO_ROOT {
        return Reason::TooDeep;
    }
    match code.into() {
        Kind::Missing => Reason::Missing,
        Kind::GoesOn => Reason::Loop,
        _ if (code / 4) as usize == i => Reason::Loop,
        Kind::Deleted => Reason::Deleted,
        Kind::NonDirectory => Reason::NonDirectory,
    }
}
