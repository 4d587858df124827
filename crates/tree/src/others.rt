// The second list of the tree: the live objects other than the root that are not in the first, in the order of heads, each with its reason.
ghost use Rattle.std.specs.Prelude.{◌≡◌, ◌<◌, length};
ghost use Rattle.tree.specs.Climbs.{SomeWays, TellsOther, PutsOthers};
ghost use Rattle.tree.specs.Objects.{says_by};

use crate::climb::{is_listed, reason_at};
use crate::objects::ROOT;
use crate::row::put_row;
use chunk::record::is_gone;
use chunk::takes::{Takes, seen_at};
use page::geometry::Geometry;
use page::number::PageNumber;
use sort::rows::{key_of, pack, value_of};

// Whether the object of row i is in the second list.
fn is_other(dump: &[u8], g: Geometry, t: Takes, heads: &[u64], ways: &[u64], i: usize) -> bool
    requires some_ways { SomeWays ways.now }
    requires ways_len { length ways.now ≡ length heads.now }
    requires i_in_bounds { i < length heads.now }
    ensures { TellsOther (says_by g dump.now t) heads.now ways.now i result }
{
    let row = heads[i];
    key_of(row) != ROOT
        && !is_gone(seen_at(dump, g, t, PageNumber(value_of(row))))
        && !is_listed(ways, i)
}

// Puts the rows of the second list at a position. Answers the position behind.
pub(crate) fn list_others(
    dump: &[u8],
    g: Geometry,
    t: Takes,
    heads: &[u64],
    ways: &[u64],
    rows: &mut [u64],
    at: usize,
) -> usize
    requires some_ways { SomeWays ways.now }
    requires ways_len { length ways.now ≡ length heads.now }
    ensures { PutsOthers (says_by g dump.now t) heads.now ways.now
        rows.old at rows.new result }
{
    let mut end = at;
    for i in 0..heads.len() {
        if is_other(dump, g, t, heads, ways, i) {
            let number = reason_at(ways, i).number();
            end = put_row(rows, end, pack(number, value_of(heads[i])));
        }
    }
    end
}
