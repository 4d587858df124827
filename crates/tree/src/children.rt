// The live objects other than the root, as rows in order of their parents.
ghost use Rattle.std.specs.Prelude.{◌≡◌, ◌≤◌, ◌<◌, ◌^◌, length, take};
ghost use Rattle.tree.specs.Children.{child_rows};
ghost use Rattle.tree.specs.Objects.{says_by};

use crate::objects::ROOT;
use crate::row::put_row;
use chunk::record::gone_under;
use chunk::takes::{Takes, seen_at};
use page::geometry::Geometry;
use page::number::PageNumber;
use page::record::Record;
use sort::keys::sort;
use sort::rows::{key_of, pack, value_of};

// Puts the children's rows in front of words that have room for as many as there are heads. Answers how many they are.
pub(crate) fn fill_children(
    dump: &[u8],
    g: Geometry,
    t: Takes,
    heads: &[u64],
    rows: &mut [u64],
) -> usize
    requires heads_len_bound { length heads.now < 2 ^ 32 }
    requires heads_in_bounds { length heads.now ≤ length rows.old }
    ensures upper_bound { result ≤ length rows.old }
    ensures rows_after { take result rows.new ≡ child_rows (says_by g dump.now t) heads.now }
{
    let mut at: usize = 0;
    for i in 0..heads.len() {
        let head = heads[i];
        if key_of(head) == ROOT {
            continue;
        }
        let r = seen_at(dump, g, t, PageNumber(value_of(head)));
        let Record::Header(h) = r else {
            continue;
        };
        if gone_under(h.parent) {
            continue;
        }
        at = put_row(rows, at, pack(h.parent.0, i as u32));
    }
    sort(rows, at);
    at
}
