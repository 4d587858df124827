// The rows of the first list, a word each whose key is the place of the directory's row: so the C interface has them. Listing a directory lists each
// of its entries, and listing an entry that is a directory lists that in turn, with one step less to go.
ghost use Rattle.std.specs.Prelude.{◌≡◌, ◌<◌, length, get_or};
ghost use Rattle.sort.specs.Packed.{value_of};
ghost use Rattle.text.specs.Put.{Put};
ghost use Rattle.tree.specs.Children.{child_rows};
ghost use Rattle.tree.specs.Heads.{Heads, object_at};
ghost use Rattle.tree.specs.Objects.{says_by, names_of};
ghost use Rattle.tree.specs.Rows.{entry_rows, rows_under};

use crate::objects::is_standing;
use crate::row::{key_behind, put_row};
use chunk::takes::{Takes, seen_at};
use page::geometry::Geometry;
use page::number::PageNumber;
use sort::rows::{key_of, pack, value_of};
use sort::search::first_from;

// Puts the rows of the entries of a directory, whose rows have this key, so many steps deep.
#[cycle(list_directory_list_entry)]
pub(crate) fn list_directory(
    dump: &[u8],
    g: Geometry,
    t: Takes,
    pages: u32,
    heads: &[u64],
    children: &[u64],
    directory: u32,
    depth: u32,
    key: u32,
    rows: &mut [u64],
    at: usize,
) -> usize
    requires heads { Heads (says_by g dump.now t) pages heads.now }
    requires children_value { children.now ≡ child_rows (says_by g dump.now t) heads.now }
    ensures { Put (rows_under (says_by g dump.now t) (names_of g dump.now) pages depth key directory at)
        rows.old at rows.new result }
{
    if depth == 0 {
        return at;
    }
    let first = first_from(children, pack(directory, 0));
    let end = first_from(children, pack(directory, u32::MAX));
    let mut next = at;
    for i in first..end {
        next = list_entry(
            dump,
            g,
            t,
            pages,
            heads,
            children,
            i,
            depth - 1,
            key,
            rows,
            next,
        );
    }
    next
}

// Puts the row of an entry, and right after it, if it is a directory, those of its entries, with so many steps left.
#[cycle(list_directory_list_entry)]
fn list_entry(
    dump: &[u8],
    g: Geometry,
    t: Takes,
    pages: u32,
    heads: &[u64],
    children: &[u64],
    i: usize,
    left: u32,
    key: u32,
    rows: &mut [u64],
    at: usize,
) -> usize
    requires heads { Heads (says_by g dump.now t) pages heads.now }
    requires children_value { children.now ≡ child_rows (says_by g dump.now t) heads.now }
    requires i_in_bounds { i < length children.now }
    ensures { Put (entry_rows (says_by g dump.now t) (names_of g dump.now) pages left key at
        (object_at heads.now (value_of (get_or children.now i 0)))) rows.old at rows.new result }
{
    let place = value_of(children[i]) as usize;
    let head = heads[place];
    let page = value_of(head);
    let next = put_row(rows, at, pack(key, page));
    if !is_standing(seen_at(dump, g, t, PageNumber(page))) {
        return next;
    }
    list_directory(
        dump,
        g,
        t,
        pages,
        heads,
        children,
        key_of(head),
        left,
        key_behind(at),
        rows,
        next,
    )
}
