// The newest header of each object, as rows in order of their ids.
ghost use Rattle.std.specs.Prelude.{◌≡◌, ◌≤◌, length, take};
ghost use Rattle.chunk.specs.Live.{passed};
ghost use Rattle.chunk.specs.Records.{age_of};
ghost use Rattle.tree.specs.Heads.{is_head, head_row, head_count, newer_row, newest_each, head_rows};
ghost use Rattle.tree.specs.Objects.{says_by};

use crate::row::put_row;
use chunk::record::{is_header, order_of, sequence_of};
use chunk::takes::{Takes, seen_at};
use page::geometry::Geometry;
use page::number::PageNumber;
use page::record::Record;
use sort::keys::sort;
use sort::rows::{key_of, pack, value_of};

// How many headers the first pages have: counted apart from the gathering, since words for them are lent.
pub(crate) fn count_heads(dump: &[u8], g: Geometry, t: Takes, pages: u32) -> u32
    ensures { result ≡ head_count (says_by g dump.now t) pages }
{
    let mut count: u32 = 0;
    for i in 0..pages {
        if is_header(seen_at(dump, g, t, PageNumber(i))) {
            count += 1;
        }
    }
    count
}

// Fills rows with those of all headers, as they come.
fn gather_heads(dump: &[u8], g: Geometry, t: Takes, pages: u32, rows: &mut [u64])
    requires { length rows.old ≡ head_count (says_by g dump.now t) pages }
    ensures { rows.new ≡ passed (is_head (says_by g dump.now t)) (head_row (says_by g dump.now t)) pages }
{
    let mut at: usize = 0;
    for i in 0..pages {
        let Record::Header(h) = seen_at(dump, g, t, PageNumber(i)) else {
            continue;
        };
        at = put_row(rows, at, pack(h.object.0, i));
    }
}

// How new a page is, at a moment.
#[tactic(auto, using(crate::proofs::Tests::cases))]
fn age_at(dump: &[u8], g: Geometry, t: Takes, p: PageNumber) -> u64
    ensures { result ≡ age_of (says_by g dump.now t) p.0 }
{
    order_of(sequence_of(seen_at(dump, g, t, p)), p)
}

// The newer of two rows, the second of which stands behind the first.
#[tactic(auto, using(crate::proofs::Tests::cases), unfolding(crate::specs::Heads::newer_row))]
fn newer_row(dump: &[u8], g: Geometry, t: Takes, row: u64, next: u64) -> u64
    ensures { result ≡ newer_row (says_by g dump.now t) row next }
{
    if age_at(dump, g, t, PageNumber(value_of(row)))
        <= age_at(dump, g, t, PageNumber(value_of(next)))
    {
        return next;
    }
    row
}

// Of rows in order, keeps the newest of each object, in front. Answers how many they are.
fn keep_newest(dump: &[u8], g: Geometry, t: Takes, rows: &mut [u64]) -> usize
    ensures upper_bound { result ≤ length rows.old }
    ensures rows_after { take result rows.new ≡ newest_each (says_by g dump.now t) rows.old }
{
    let n = rows.len();
    if n == 0 {
        return 0;
    }
    let mut best = rows[0];
    let mut at: usize = 0;
    for i in 1..n {
        let row = rows[i];
        if key_of(best) == key_of(row) {
            best = newer_row(dump, g, t, best, row);
            continue;
        }
        rows[at] = best;
        at += 1;
        best = row;
    }
    rows[at] = best;
    at + 1
}

// Puts the newest headers of all objects in front of rows that have room for all headers. Answers how many they are.
#[tactic(auto, using(crate::proofs::Tests::cases, sort::proofs::Splitting::all_first), unfolding(crate::specs::Heads::head_rows, chunk::specs::Live::ids_of))]
pub(crate) fn fill_heads(dump: &[u8], g: Geometry, t: Takes, pages: u32, rows: &mut [u64]) -> usize
    requires { length rows.old ≡ head_count (says_by g dump.now t) pages }
    ensures upper_bound { result ≤ length rows.old }
    ensures rows_after { take result rows.new ≡ head_rows (says_by g dump.now t) pages }
{
    gather_heads(dump, g, t, pages, rows);
    let n = rows.len();
    sort(rows, n);
    keep_newest(dump, g, t, rows)
}
