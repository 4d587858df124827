// Which stretches of a file differ between two dumps, by the rows of its copies on both sides. Where neither side has a copy nothing is compared: the
// cost goes by the rows and by the bytes that their copies hold, and not by the size.
ghost use Rattle.std.specs.Prelude.{◌≡◌, [], ◌∷◌, map, min, max, ◌+◌, ◌-◌, ◌*◌, ◌≤◌, ◌<◌, ◌^◌, length, drop};
ghost use Rattle.sort.specs.Lists.{joined};
ghost use Rattle.text.specs.Put.{Put};
ghost use Rattle.compare.specs.Differences.{stretch, stretch_bytes, stretches_in, stretch_differs, stretches_to};
ghost use Rattle.compare.specs.Parts.{Shows, begins_in, line_if};
ghost use Rattle.compare.specs.Report.{lines_of};
ghost use Rattle.compare.specs.Sides.{row_begin, row_end, standing, byte_by, rows_show};

use crate::bytes::differ;
use crate::part::part;
use chunk::answer::Chunk;
use chunk::read::part_of;
use chunk::record::base_of;
use file::copy::Copy;
use page::geometry::Geometry;
use page::number::{ChunkNumber, PageNumber};
use sort::rows::row_at;
use text::put::put_line;

// The bytes of a stretch.
const STRETCH: u64 = 512;

// How many stretches so many bytes have, the last cut off or not.
pub(crate) fn stretches_in(m: u64) -> u64
    ensures { result ≡ stretches_in m }
{
    m.div_ceil(STRETCH)
}

// Where the copy of a row begins in its file.
#[tactic(auto, using(crate::proofs::Tests::cases))]
fn begin_of(g: Geometry, row: u64) -> u64
    ensures value { result ≡ row_begin g.layout.«data» row }
    ensures result_bound { result + 2 ^ 32 < 2 ^ 64 }
{
    base_of(g.layout.data, ChunkNumber(Copy::of(row).chunk))
}

// Where its valid bytes end.
#[tactic(auto, using(crate::proofs::Tests::cases))]
fn end_of(g: Geometry, row: u64) -> u64
    ensures { result ≡ row_end g.layout.«data» row }
{
    begin_of(g, row) + (Copy::of(row).valid as u64)
}

// The place of the first row, from a place on, that does not end at or before stretch k; behind the last row where there is none. The rows are a
// caller's and need not ascend, so that there is no search by halves.
#[tactic(auto, using(crate::proofs::Tests::cases, crate::proofs::Stretching::standing_next, crate::proofs::Stretching::standing_here, crate::proofs::Stretching::standing_end))]
fn standing_from(g: Geometry, rows: &[u64], from: usize, k: u64) -> usize
    requires from_in_bounds { from ≤ length rows.now }
    requires k_bound { stretch_bytes * k < 2 ^ 64 }
    ensures rows_value { drop result rows.now ≡ standing g.layout.«data» (stretch_bytes * k) (drop from rows.now) }
    ensures upper_bound { result ≤ length rows.now }
{
    let x = STRETCH * k;
    for i in from..rows.len() {
        if x < end_of(g, rows[i]) {
            return i;
        }
    }
    rows.len()
}

// The stretch in which row i begins; the last where there is no such row.
#[tactic(auto, using(crate::proofs::Tests::cases))]
fn begins_in(g: Geometry, rows: &[u64], i: usize, last: u64) -> u64
    ensures { result ≡ begins_in g.layout.«data» last (drop i rows.now) }
{
    if i < rows.len() {
        begin_of(g, rows[i]) / STRETCH
    } else {
        last
    }
}

// The stretch that is compared after stretch k, where the rows that stand there begin in stretches a and b.
fn after(k: u64, a: u64, b: u64, end: u64) -> u64
    requires { k < end }
    ensures { result ≡ max (k + 1) (min (min a b) end) }
{
    (k + 1).max(a.min(b).min(end))
}

// The bytes that a row shows in stretch k, cut off at the size m; zeros are behind them.
#[tactic(auto, using(crate::proofs::Tests::cases, crate::proofs::Stretching::part_within))]
fn part_in(dump: &[u8], g: Geometry, row: u64, k: u64, m: u64) -> &[u8]
    requires { stretch_bytes * k ≤ m }
    ensures { Shows result.now (byte_by g dump.now (row ∷ [])) (stretch_bytes * k) (min stretch_bytes (m - stretch_bytes * k)) }
{
    let begin = begin_of(g, row);
    let from = STRETCH * k;
    if from < begin {
        return &[];
    }
    let c = Copy::of(row);
    let copy = Chunk::Copy {
        page: PageNumber(c.page),
        valid: c.valid,
        shown: 0,
        visits: 0,
    };
    let n = STRETCH.min(m - from);
    part(
        part_of(dump, g, Ok(copy)),
        (from - begin) as usize,
        n as usize,
    )
}

// Puts the line of stretch k, cut off at the size m, if it differs by the row of each side.
#[tactic(auto, using(crate::proofs::Tests::cases, crate::proofs::Differing::shown_differ, crate::proofs::Stretching::line_differs))]
fn put_stretch(
    dump: &[u8],
    g: Geometry,
    row: u64,
    dump2: &[u8],
    g2: Geometry,
    row2: u64,
    m: u64,
    k: u64,
    buf: &mut [u8],
    at: usize,
) -> usize
    requires { stretch_bytes * k ≤ m }
    ensures { Put (line_if (stretch_differs (byte_by g dump.now (row ∷ [])) (byte_by g2 dump2.now (row2 ∷ [])) m k) k) buf.old at buf.new result }
{
    let a = part_in(dump, g, row, k, m);
    let b = part_in(dump2, g2, row2, k, m);
    if differ(a, b) {
        put_line(buf, at, b"stretch=", k)
    } else {
        at
    }
}

// Puts the lines of the stretches that differ, up to the size m. Where no row stands any more, 0 is the row of a copy without bytes.
#[tactic(auto, using(crate::proofs::Tests::cases, text::proofs::Putting::kept, crate::proofs::Stretching::begins_below, crate::proofs::Stretching::turn))]
pub(crate) fn put_stretches(
    dump: &[u8],
    g: Geometry,
    rows: &[u64],
    dump2: &[u8],
    g2: Geometry,
    rows2: &[u64],
    m: u64,
    buf: &mut [u8],
    at: usize,
) -> usize
    ensures { Put (joined lines_of (map stretch (stretches_to (rows_show g dump.now rows.now) (rows_show g2 dump2.now rows2.now) m))) buf.old at buf.new result }
{
    let end = stretches_in(m);
    let mut next = at;
    let mut k: u64 = 0;
    let mut i: usize = 0;
    let mut j: usize = 0;
    while k < end {
        i = standing_from(g, rows, i, k);
        j = standing_from(g2, rows2, j, k);
        next = put_stretch(
            dump,
            g,
            row_at(rows, i),
            dump2,
            g2,
            row_at(rows2, j),
            m,
            k,
            buf,
            next,
        );
        k = after(
            k,
            begins_in(g, rows, i, end),
            begins_in(g2, rows2, j, end),
            end,
        );
    }
    next
}
