// The tree of a dump's live objects.
ghost use Rattle.std.specs.Prelude.{◌≡◌, length};
ghost use Rattle.tree.specs.Answers.{tree_on, rows_left, work_left};
ghost use Rattle.tree.specs.Texts.{text_on, text_left, path_on, path_left};
ghost use Rattle.capi.specs.Layouts.{geometry_at};
ghost use Rattle.capi.specs.Moments.{moment_at};
ghost use Rattle.capi.specs.Trees.{tree_answer, texted_answer, row_answer};

use capi::layout::Geometry;
use capi::trees::{RowAnswer, TextAnswer, TreeAnswer};

// The rows of the tree, a word each: those of the first list in its order, then those of the second. The words of `heads` and `work` that were needed
// are cleared, words past those stay, and so do those of `rows` behind the rows; a refusal writes nothing.
#[unsafe(no_mangle)]
pub extern "C" fn lohenarr_dump_tree(
    dump: &[u8],
    geometry: Geometry,
    before: u32,
    rows: &mut [u64],
    heads: &mut [u64],
    work: &mut [u64],
) -> TreeAnswer
    ensures value { result ≡ tree_answer (tree_on (geometry_at geometry) dump.now (moment_at before) (length rows.old) (length heads.old) (length work.old)) }
    ensures rows_after { rows.new ≡ rows_left (geometry_at geometry) dump.now (moment_at before) rows.old (length heads.old) (length work.old) }
    ensures heads_after { heads.new ≡ work_left (geometry_at geometry) dump.now (moment_at before) (length rows.old) (length heads.old) (length work.old) heads.old }
    ensures work_after { work.new ≡ work_left (geometry_at geometry) dump.now (moment_at before) (length rows.old) (length heads.old) (length work.old) work.old }
{
    capi::trees::lohenarr_dump_tree(dump, geometry, before, rows, heads, work)
}

// Writes the text of the tree's rows, of which the first `listed` are of the first list. Bytes past the text stay, and a refusal writes nothing.
#[unsafe(no_mangle)]
pub extern "C" fn lohenarr_tree_text(
    dump: &[u8],
    geometry: Geometry,
    rows: &[u64],
    listed: u32,
    buf: &mut [u8],
) -> TextAnswer
    ensures value { result ≡ texted_answer (text_on (geometry_at geometry) dump.now rows.now listed (length buf.old)) }
    ensures buf_after { buf.new ≡ text_left (geometry_at geometry) dump.now rows.now listed buf.old }
{
    capi::trees::lohenarr_tree_text(dump, geometry, rows, listed, buf)
}

// Writes the path of a row of the first list; no bytes where there is no such row. Bytes past the path stay, and a refusal writes nothing.
#[unsafe(no_mangle)]
pub extern "C" fn lohenarr_tree_path(
    dump: &[u8],
    geometry: Geometry,
    rows: &[u64],
    row: u32,
    buf: &mut [u8],
) -> TextAnswer
    ensures value { result ≡ texted_answer (path_on (geometry_at geometry) dump.now rows.now row (length buf.old)) }
    ensures buf_after { buf.new ≡ path_left (geometry_at geometry) dump.now rows.now row buf.old }
{
    capi::trees::lohenarr_tree_path(dump, geometry, rows, row, buf)
}

// What a row of the tree holds.
#[unsafe(no_mangle)]
pub extern "C" fn lohenarr_tree_row(row: u64) -> RowAnswer
    ensures { result ≡ row_answer row }
{
    capi::trees::lohenarr_tree_row(row)
}
