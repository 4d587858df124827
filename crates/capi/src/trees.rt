// The tree of a dump's live objects: its rows, their text, the path of one of them, and what a row holds.
ghost use Rattle.std.specs.Prelude.{◌≡◌, length};
ghost use Rattle.tree.specs.Answers.{tree_on, rows_left, work_left};
ghost use Rattle.tree.specs.Texts.{text_on, text_left, path_on, path_left};
ghost use Rattle.capi.specs.Layouts.{geometry_at};
ghost use Rattle.capi.specs.Moments.{moment_at};
ghost use Rattle.capi.specs.Trees.{tree_answer, texted_answer, row_answer};

use crate::layout::{Geometry, geometry_at};
use crate::moment::moment_at;
use sort::rows::{key_of, value_of};
use tree::texts::{Texted, path, text};
use tree::whole::{Grown, tree};

// How many rows the first list has, and the second. Beside ShortBuffer `need` is how many words each slice needs, and 0 else.
#[repr(C)]
#[derive(Clone, Copy, Default)]
pub struct TreeAnswer {
    pub refusal: u32,
    pub need: u32,
    pub listed: u32,
    pub others: u32,
}

// How many bytes were written. Beside ShortBuffer `need` is how many it needs, and 0 else.
#[repr(C)]
#[derive(Clone, Copy, Default)]
pub struct TextAnswer {
    pub refusal: u32,
    pub need: u64,
    pub length: u64,
}

// A row of the tree: its key, and the page of its object's newest header.
#[repr(C)]
#[derive(Clone, Copy, Default)]
pub struct RowAnswer {
    pub key: u32,
    pub page: u32,
}

impl From<Grown> for TreeAnswer {
    ghost from_gives = { λ a r. r ≡ tree_answer a };

    fn from(answer: Grown) -> TreeAnswer
        ensures { result ≡ tree_answer answer }
    {
        match answer {
            Err(e) => TreeAnswer {
                refusal: e.refusal.number(),
                need: e.need,
                ..TreeAnswer::default()
            },
            Ok(lists) => TreeAnswer {
                listed: lists.listed,
                others: lists.others,
                ..TreeAnswer::default()
            },
        }
    }
}

// What became of a text or of a report.
impl From<Texted> for TextAnswer {
    ghost from_gives = { λ a r. r ≡ texted_answer a };

    fn from(answer: Texted) -> TextAnswer
        ensures { result ≡ texted_answer answer }
    {
        match answer {
            Err(e) => TextAnswer {
                refusal: e.refusal.number(),
                need: e.need,
                ..TextAnswer::default()
            },
            Ok(length) => TextAnswer {
                length,
                ..TextAnswer::default()
            },
        }
    }
}

// The rows of the tree, a word each: those of the first list in its order, then those of the second. The words of `heads` and `work` that were needed
// are cleared, words past those stay, and so do those of `rows` behind the rows; a refusal writes nothing.
pub fn lohenarr_dump_tree(
    dump: &[u8],
    geometry: Geometry,
    before: u32,
    rows: &mut [u64],
    heads: &mut [u64],
    work: &mut [u64],
) -> TreeAnswer
    ensures value { result ≡ tree_answer (tree_on (geometry_at geometry) dump.now (moment_at before) (length rows.old) (length heads.old) (length work.old)) }
    ensures rows_after { rows.new ≡ rows_left (geometry_at geometry) dump.now (moment_at before) rows.old (length heads.old) (length work.old) }
    ensures heads_after { heads.new ≡ work_left (geometry_at geometry) dump.now (moment_at before) (length rows.old) (length heads.old) (length work.old) heads.old }
    ensures work_after { work.new ≡ work_left (geometry_at geometry) dump.now (moment_at before) (length rows.old) (length heads.old) (length work.old) work.old }
{
    tree(
        dump,
        geometry_at(geometry),
        moment_at(before),
        rows,
        heads,
        work,
    )
    .into()
}

// Writes the text of the tree's rows, of which the first `listed` are of the first list. Bytes past the text stay, and a refusal writes nothing.
pub fn lohenarr_tree_text(
    dump: &[u8],
    geometry: Geometry,
    rows: &[u64],
    listed: u32,
    buf: &mut [u8],
) -> TextAnswer
    ensures value { result ≡ texted_answer (text_on (geometry_at geometry) dump.now rows.now listed (length buf.old)) }
    ensures buf_after { buf.new ≡ text_left (geometry_at geometry) dump.now rows.now listed buf.old }
{
    text(dump, geometry_at(geometry), rows, listed, buf).into()
}

// Writes the path of a row of the first list; no bytes where there is no such row. Bytes past the path stay, and a refusal writes nothing.
pub fn lohenarr_tree_path(
    dump: &[u8],
    geometry: Geometry,
    rows: &[u64],
    row: u32,
    buf: &mut [u8],
) -> TextAnswer
    ensures value { result ≡ texted_answer (path_on (geometry_at geometry) dump.now rows.now row (length buf.old)) }
    ensures buf_after { buf.new ≡ path_left (geometry_at geometry) dump.now rows.now row buf.old }
{
    path(dump, geometry_at(geometry), rows, row, buf).into()
}

// What a row of the tree holds.
pub fn lohenarr_tree_row(row: u64) -> RowAnswer
    ensures { result ≡ row_answer row }
{
    RowAnswer {
        key: key_of(row),
        page: value_of(row),
    }
}
