// The rows of the copies that each object's file shows, beside the words of its records.
ghost use Rattle.std.specs.Prelude.{◌++◌, ◌≡◌, ◌-◌, ◌≤◌, ◌<◌, length, take, replicate};
ghost use Rattle.page.specs.Lengths.{opened_of};
ghost use Rattle.page.specs.Numbers.{page_values};
ghost use Rattle.page.specs.Records.{record_at};
ghost use Rattle.compare.specs.Prepared as prepared;
ghost use Rattle.compare.specs.Prepared.{work_for};
ghost use Rattle.compare.specs.Rows.{rows_in, copies_in};

use crate::head::{head_of, size_of};
use crate::runs::run_of;
use file::along::copies_along;
use page::geometry::Geometry;
use sort::room::copy;
use sort::rows::key_of;

// Lays a part at the begin of words, and zeros behind it.
fn lay(words: &mut [u64], part: &[u64])
    requires { length part.now ≤ length words.old }
    ensures { words.new ≡ part.now ++ replicate (length words.old - length part.now) 0 }
{
    let (front, rest) = words.split_at_mut(part.len());
    copy(front, part);
    rest.fill(0);
}

// Writes the rows of the copies that the file of these records shows to the begin of the work; none of an object that is no live file. Answers how
// many they are, 0 then, as the definition does.
#[tactic(auto, using(crate::proofs::Tests::cases, crate::proofs::Heads::head_size), unfolding(crate::specs::Rows::rows_in))]
fn rows_of(dump: &[u8], g: Geometry, pages: u32, list: &[u64], work: &mut [u64]) -> usize
    requires dump_value { opened_of g (length dump.now) ≡ Ok pages }
    requires list_len_bound { length list.now < page_values }
    requires list_in_bounds { work_for (length list.now) ≤ length work.old }
    ensures upper_bound { result ≤ length list.now }
    ensures work_after { take result work.new ≡ rows_in (record_at g dump.now) g.layout.«data» list.now }
{
    match size_of(dump, g, head_of(dump, g, list)) {
        None => 0,
        Some(size) => copies_along(dump, g, list, size, work).unwrap_or(0) as usize,
    }
}

// Writes the rows of the copies that the file of these records shows, and zeros behind them.
#[tactic(auto, using(crate::proofs::Tests::cases, crate::proofs::Filling::laid_padded))]
fn fill_run(dump: &[u8], g: Geometry, pages: u32, list: &[u64], rows: &mut [u64], work: &mut [u64])
    requires dump_value { opened_of g (length dump.now) ≡ Ok pages }
    requires list_len_bound { length list.now < page_values }
    requires rows_len { length rows.old ≡ length list.now }
    requires list_in_bounds { work_for (length list.now) ≤ length work.old }
    ensures { rows.new ≡ copies_in (record_at g dump.now) g.layout.«data» list.now }
{
    let m = rows_of(dump, g, pages, list, work);
    lay(rows, &work[..m]);
}

// Writes for each object the rows of its copies at the places of its records: run after run of one object.
#[tactic(auto, using(crate::proofs::Tests::cases, crate::proofs::Filling::fill_start))]
pub(crate) fn fill_copies(
    dump: &[u8],
    g: Geometry,
    pages: u32,
    order: &[u64],
    copies: &mut [u64],
    work: &mut [u64],
)
    requires dump_value { opened_of g (length dump.now) ≡ Ok pages }
    requires order_value { order.now ≡ prepared.order (record_at g dump.now) pages }
    requires copies_len { length copies.old ≡ length order.now }
    requires order_in_bounds { work_for (length order.now) ≤ length work.old }
    ensures { copies.new ≡ prepared.copies (record_at g dump.now) pages g.layout.«data» }
{
    let mut i: usize = 0;
    while i < order.len() {
        let o = key_of(order[i]);
        let end = i + run_of(&order[i..], o);
        fill_run(dump, g, pages, &order[i..end], &mut copies[i..end], work);
        i = end;
    }
}
