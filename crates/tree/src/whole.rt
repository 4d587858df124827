// The rows of both lists of a dump's tree. All words are lent: those of the rows, and as many for the newest headers and for the children, and then
// the ways up.
ghost use Rattle.std.specs.Prelude.{◌≡◌, ◌≤◌, ◌<◌, length, replicate};
ghost use Rattle.page.specs.Numbers.{page_values};
ghost use Rattle.page.specs.Lengths.{opened_of};
ghost use Rattle.chunk.specs.Lists.{in_front};
ghost use Rattle.text.specs.Put.{Put};
ghost use Rattle.tree.specs.Answers.{grown_to, tree_on, rows_left, work_left};
ghost use Rattle.tree.specs.Climbs.{code_places};
ghost use Rattle.tree.specs.Heads.{Heads, head_count};
ghost use Rattle.tree.specs.Objects.{says_by, names_of};
ghost use Rattle.tree.specs.Rows.{listed_rows, other_rows, tree_rows};

use crate::children::fill_children;
use crate::climb::find_ways;
use crate::heads::{count_heads, fill_heads};
use crate::list::list_directory;
use crate::objects::{MOST_DEPTH, ROOT};
use crate::others::list_others;
use chunk::moment::Moment;
use chunk::takes::Takes;
use page::geometry::Geometry;
use page::refusal::{Refusal, Short};

// How many rows the first list has, and the second; or a refusal, with the words that each slice needs beside ShortBuffer.
pub type Grown = Result<Lists, Short<u32>>;

#[derive(Clone, Copy)]
pub struct Lists {
    pub listed: u32,
    pub others: u32,
}

// Puts the rows of the first list, with words to work in. Answers how many they are.
#[tactic(auto, using(crate::proofs::Tests::cases), unfolding(crate::specs::Rows::listed_rows))]
fn first_list(
    dump: &[u8],
    g: Geometry,
    t: Takes,
    pages: u32,
    heads: &[u64],
    work: &mut [u64],
    rows: &mut [u64],
) -> usize
    requires heads { Heads (says_by g dump.now t) pages heads.now }
    requires heads_in_bounds { length heads.now ≤ length work.old }
    ensures { Put (listed_rows (says_by g dump.now t) (names_of g dump.now) pages)
        rows.old 0 rows.new result }
{
    let count = fill_children(dump, g, t, heads, work);
    list_directory(
        dump,
        g,
        t,
        pages,
        heads,
        &work[..count],
        ROOT,
        MOST_DEPTH,
        0,
        rows,
        0,
    )
}

// Puts the rows of the second list at a position, with words to work in. Answers the position behind.
fn second_list(
    dump: &[u8],
    g: Geometry,
    t: Takes,
    pages: u32,
    heads: &[u64],
    work: &mut [u64],
    rows: &mut [u64],
    at: usize,
) -> usize
    requires heads { Heads (says_by g dump.now t) pages heads.now }
    requires heads_len_bound { length heads.now ≤ code_places }
    requires work_len { length work.old ≡ length heads.now }
    ensures { Put (other_rows (says_by g dump.now t) (names_of g dump.now) pages)
        rows.old at rows.new result }
{
    find_ways(dump, g, t, pages, heads, work);
    list_others(dump, g, t, heads, work, rows, at)
}

// Puts the rows of both lists, with as many words to work in as there are heads.
fn put_lists(
    dump: &[u8],
    g: Geometry,
    t: Takes,
    pages: u32,
    heads: &[u64],
    work: &mut [u64],
    rows: &mut [u64],
) -> Grown
    requires heads { Heads (says_by g dump.now t) pages heads.now }
    requires heads_len_bound { length heads.now ≤ code_places }
    requires work_len { length work.old ≡ length heads.now }
    requires pages_in_bounds { head_count (says_by g dump.now t) pages ≤ length rows.old }
    ensures value { result ≡ grown_to (says_by g dump.now t) (names_of g dump.now) pages }
    ensures rows_after { rows.new
        ≡ in_front (tree_rows (says_by g dump.now t) (names_of g dump.now) pages) rows.old }
{
    let listed = first_list(dump, g, t, pages, heads, work, rows);
    let all = second_list(dump, g, t, pages, heads, work, rows, listed);
    let others = all - listed;
    Ok(Lists {
        listed: listed as u32,
        others: others as u32,
    })
}

// Puts the rows of both lists. The other words, as many as there are headers, are worked in and cleared.
fn both_lists(
    dump: &[u8],
    g: Geometry,
    t: Takes,
    pages: u32,
    rows: &mut [u64],
    heads: &mut [u64],
    work: &mut [u64],
) -> Grown
    requires pages_lt_page_values { pages < page_values }
    requires pages_in_bounds { head_count (says_by g dump.now t) pages ≤ length rows.old }
    requires heads_len { length heads.old ≡ head_count (says_by g dump.now t) pages }
    requires work_len { length work.old ≡ head_count (says_by g dump.now t) pages }
    ensures value { result ≡ grown_to (says_by g dump.now t) (names_of g dump.now) pages }
    ensures rows_after { rows.new
        ≡ in_front (tree_rows (says_by g dump.now t) (names_of g dump.now) pages) rows.old }
    ensures heads_after { heads.new ≡ replicate (length heads.old) 0 }
    ensures work_after { work.new ≡ replicate (length work.old) 0 }
{
    let count = fill_heads(dump, g, t, pages, heads);
    let answer = put_lists(dump, g, t, pages, &heads[..count], &mut work[..count], rows);
    heads.fill(0);
    work.fill(0);
    answer
}

// Puts the rows of both lists of a dump of so many pages, where the slices have room.
fn tree_in(
    dump: &[u8],
    g: Geometry,
    pages: u32,
    m: Moment,
    rows: &mut [u64],
    heads: &mut [u64],
    work: &mut [u64],
) -> Grown
    requires { opened_of g (length dump.now) ≡ Ok pages }
    ensures value { result ≡ tree_on g dump.now m
        (length rows.old) (length heads.old) (length work.old) }
    ensures rows_after { rows.new ≡ rows_left g dump.now m
        rows.old (length heads.old) (length work.old) }
    ensures heads_after { heads.new ≡ work_left g dump.now m
        (length rows.old) (length heads.old) (length work.old) heads.old }
    ensures work_after { work.new ≡ work_left g dump.now m
        (length rows.old) (length heads.old) (length work.old) work.old }
{
    if m.is_missing(pages) {
        return Err(Refusal::BadPage.into());
    }
    let t = m.takes(dump, g);
    let need = count_heads(dump, g, t, pages);
    let room = need as usize;
    if rows.len().min(heads.len()).min(work.len()) < room {
        return Err(Short {
            refusal: Refusal::ShortBuffer,
            need,
        });
    }
    both_lists(
        dump,
        g,
        t,
        pages,
        rows,
        &mut heads[..room],
        &mut work[..room],
    )
}

// Puts the rows of both lists of a dump's tree at a moment into `rows`, if each slice has a word for each header. The other two are worked in and
// cleared.
#[tactic(auto, using(crate::proofs::Tests::cases), unfolding(crate::specs::Answers::tree_on, crate::specs::Answers::rows_left, crate::specs::Answers::work_left))]
pub fn tree(
    dump: &[u8],
    g: Geometry,
    m: Moment,
    rows: &mut [u64],
    heads: &mut [u64],
    work: &mut [u64],
) -> Grown
    ensures value { result ≡ tree_on g dump.now m
        (length rows.old) (length heads.old) (length work.old) }
    ensures rows_after { rows.new ≡ rows_left g dump.now m
        rows.old (length heads.old) (length work.old) }
    ensures heads_after { heads.new ≡ work_left g dump.now m
        (length rows.old) (length heads.old) (length work.old) heads.old }
    ensures work_after { work.new ≡ work_left g dump.now m
        (length rows.old) (length heads.old) (length work.old) work.old }
{
    let pages = g.opened(dump.len())?;
    tree_in(dump, g, pages, m, rows, heads, work)
}
