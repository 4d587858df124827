// The text of the report: ten lines, or the one line of a refusal, put by `text::put`, which also measures on no bytes; a formatter would need a sink.
ghost use Rattle.std.specs.Prelude.{◌≡◌, length};
ghost use Rattle.text.specs.Put.{Put};
ghost use Rattle.text.specs.Whole.{written_by, bytes_by};
ghost use Rattle.summary.specs.Report.{layout_line, kind_lines, ten_lines, refusal_line, text_of, report_of};

use crate::figures::{Figures, figures_of};
use page::count::Counts;
use page::layout::Layout;
use page::refusal::Refusal;
use text::put::{put_field, put_line};
use text::written::Short;

// No report is longer.
pub const LONGEST: usize = 199;

// Puts the line of the layout.
fn put_layout(buf: &mut [u8], at: usize, l: Layout) -> usize
    ensures { Put (layout_line l) buf.old at buf.new result }
{
    let spare = put_field(buf, at, b"layout=", l.data as u64);
    let tag = put_field(buf, spare, b"/", l.spare as u64);
    put_line(buf, tag, b"/", l.tag as u64)
}

// Puts the lines of the page kinds.
fn put_kinds(buf: &mut [u8], at: usize, c: Counts) -> usize
    ensures { Put (kind_lines c) buf.old at buf.new result }
{
    let foreign = put_line(buf, at, b"blank=", c.blank as u64);
    let damaged = put_line(buf, foreign, b"foreign=", c.foreign as u64);
    let headers = put_line(buf, damaged, b"damaged=", c.damaged as u64);
    let data = put_line(buf, headers, b"headers=", c.headers as u64);
    put_line(buf, data, b"data=", c.data as u64)
}

// Puts the ten lines.
fn put_figures(buf: &mut [u8], at: usize, f: Figures) -> usize
    ensures { Put (ten_lines f) buf.old at buf.new result }
{
    let block = put_layout(buf, at, f.geometry.layout);
    let pages = put_line(buf, block, b"block=", f.geometry.block as u64);
    let kinds = put_line(buf, pages, b"pages=", f.pages as u64);
    let objects = put_kinds(buf, kinds, f.counts);
    let live = put_line(buf, objects, b"objects=", f.objects as u64);
    put_line(buf, live, b"live=", f.live as u64)
}

// Puts the one line of a refusal.
#[tactic(auto, using(crate::proofs::Tests::cases), unfolding(crate::specs::Report::refusal_line))]
fn put_refusal(buf: &mut [u8], at: usize, r: Refusal) -> usize
    ensures { Put (refusal_line r) buf.old at buf.new result }
{
    put_line(buf, at, b"refusal=", r.number() as u64)
}

// Puts the report.
#[tactic(auto, using(crate::proofs::Tests::cases), unfolding(crate::specs::Report::text_of))]
fn put_report(buf: &mut [u8], at: usize, f: Result<Figures, Refusal>) -> usize
    ensures { Put (text_of f) buf.old at buf.new result }
{
    match f {
        Ok(figures) => put_figures(buf, at, figures),
        Err(refusal) => put_refusal(buf, at, refusal),
    }
}

// Writes the report, if it fits: measured first, by the same function on no bytes, since nothing is written where it does not.
fn write_figured(f: Result<Figures, Refusal>, buf: &mut [u8]) -> Result<usize, Short>
    ensures value { result ≡ written_by (length buf.old) (text_of f) }
    ensures buf_after { buf.new ≡ bytes_by (text_of f) buf.old }
{
    let need = put_report(&mut buf[..0], 0, f);
    if buf.len() < need {
        return Err(Short { needed: need });
    }
    put_report(buf, 0, f);
    Ok(need)
}

// Writes the report of a dump in blocks of k pages, if it fits: the ten lines under the layout that is found, or the line of the refusal to find it.
#[tactic(auto, using(crate::proofs::Tests::cases), unfolding(crate::specs::Report::report_of))]
pub fn write_report(dump: &[u8], k: u32, buf: &mut [u8]) -> Result<usize, Short>
    ensures value { result ≡ written_by (length buf.old) (report_of dump.now k) }
    ensures buf_after { buf.new ≡ bytes_by (report_of dump.now k) buf.old }
{
    write_figured(figures_of(dump, k), buf)
}

// Writes the line of a refusal, if it fits.
pub fn write_refusal(r: Refusal, buf: &mut [u8]) -> Result<usize, Short>
    ensures value { result ≡ written_by (length buf.old) (refusal_line r) }
    ensures buf_after { buf.new ≡ bytes_by (refusal_line r) buf.old }
{
    write_figured(Err(r), buf)
}
