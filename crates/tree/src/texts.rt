// The text of the tree's rows, and the path of one of them, in lent bytes. A text is measured first and then written whole or not at all.
ghost use Rattle.std.specs.Prelude.{◌≡◌, ◌∷◌, ◌≤◌, length, get_or};
ghost use Rattle.sort.specs.Packed.{key_of, value_of};
ghost use Rattle.text.specs.Put.{Put};
ghost use Rattle.text.specs.Quoted.{bytes_of};
ghost use Rattle.text.specs.Lines.{line_of};
ghost use Rattle.text.specs.Whole.{written_by, bytes_by};
ghost use Rattle.tree.specs.Paths.{most_depth, slash, up_to_zero};
ghost use Rattle.tree.specs.Rows.{name_on, object_in, path_in, path_at, row_lines, rows_text, reason_at};
ghost use Rattle.tree.specs.Texts.{texted_by, text_on, text_left, path_on, path_left};
ghost use Rattle.tree.specs.Tree.{words_of, path_lines, reason_lines};

use crate::objects::MOST_DEPTH;
use crate::reason::Reason;
use chunk::record::object_of;
use page::fields::Text;
use page::geometry::Geometry;
use page::header::text_in;
use page::number::PageNumber;
use page::record::record_at;
use page::refusal::{Refusal, Short};
use sort::rows::{key_of, row_at, value_of};
use text::put::{put_byte, put_line, put_text};
use text::written;

// How many bytes were written; or a refusal, with the bytes that ShortBuffer needs.
pub type Texted = Result<u64, Short<u64>>;

// How many bytes stand before the first zero byte.
fn name_length(bytes: &[u8]) -> usize
    ensures value { result ≡ length (up_to_zero bytes.now) }
    ensures upper_bound { result ≤ length bytes.now }
{
    bytes.iter().position(|&x| x == 0).unwrap_or(bytes.len())
}

// Puts the name on a page.
fn put_name(dump: &[u8], g: Geometry, p: PageNumber, buf: &mut [u8], at: usize) -> usize
    ensures { Put (name_on g dump.now p.0) buf.old at buf.new result }
{
    let bytes = text_in(dump, g, p, Text::Name);
    let end = name_length(bytes);
    put_text(buf, at, &bytes[..end])
}

// Puts the last step of a row's path: a slash and the name on its page.
fn put_step(dump: &[u8], g: Geometry, row: u64, buf: &mut [u8], at: usize) -> usize
    ensures { Put (slash ∷ name_on g dump.now (value_of row)) buf.old at buf.new result }
{
    let next = put_byte(buf, at, b'/');
    put_name(dump, g, PageNumber(value_of(row)), buf, next)
}

// Puts the path of row i, of at most so many steps.
fn put_path(
    dump: &[u8],
    g: Geometry,
    rows: &[u64],
    steps: u32,
    i: usize,
    buf: &mut [u8],
    at: usize,
) -> usize
    ensures { Put (path_in g dump.now rows.now steps i) buf.old at buf.new result }
{
    if steps == 0 {
        return at;
    }
    let row = row_at(rows, i);
    let key = key_of(row);
    if key == 0 {
        return put_step(dump, g, row, buf, at);
    }
    let next = put_path(dump, g, rows, steps - 1, (key - 1) as usize, buf, at);
    put_step(dump, g, row, buf, next)
}

// Puts the line of a row's object.
#[tactic(auto, using(crate::proofs::Tests::cases))]
fn put_object(dump: &[u8], g: Geometry, row: u64, buf: &mut [u8], at: usize) -> usize
    ensures { Put (line_of (bytes_of "object=") (object_in g dump.now row)) buf.old at buf.new result }
{
    let object = object_of(record_at(dump, g, PageNumber(value_of(row))));
    put_line(buf, at, b"object=", object as u64)
}

// Puts the two lines of row i of the first list.
fn put_path_lines(
    dump: &[u8],
    g: Geometry,
    rows: &[u64],
    i: usize,
    buf: &mut [u8],
    at: usize,
) -> usize
    ensures { Put (path_lines (object_in g dump.now (get_or rows.now i 0))
        (path_in g dump.now rows.now most_depth i)) buf.old at buf.new result }
{
    let key = put_object(dump, g, row_at(rows, i), buf, at);
    let path = put_text(buf, key, b"path=");
    let end = put_path(dump, g, rows, MOST_DEPTH, i, buf, path);
    put_byte(buf, end, b'\n')
}

// Puts a reason in words.
#[tactic(auto, using(crate::proofs::Tests::cases))]
fn put_words(r: Reason, buf: &mut [u8], at: usize) -> usize
    ensures { Put (words_of r) buf.old at buf.new result }
{
    match r {
        Reason::TooDeep => put_text(buf, at, b"too deep"),
        Reason::Loop => put_text(buf, at, b"loop"),
        Reason::Missing => put_text(buf, at, b"missing"),
        Reason::Deleted => put_text(buf, at, b"deleted"),
        Reason::NonDirectory => put_text(buf, at, b"non-directory"),
    }
}

// Puts the two lines of a row of the second list.
fn put_reason_lines(dump: &[u8], g: Geometry, row: u64, buf: &mut [u8], at: usize) -> usize
    ensures { Put (reason_lines (object_in g dump.now row) (reason_at (key_of row))) buf.old at buf.new result }
{
    let key = put_object(dump, g, row, buf, at);
    let words = put_text(buf, key, b"reason=");
    let end = put_words(key_of(row).into(), buf, words);
    put_byte(buf, end, b'\n')
}

// Puts the two lines of row i, of which so many are of the first list.
#[tactic(auto, using(crate::proofs::Tests::cases), unfolding(crate::specs::Rows::row_lines))]
fn put_row_lines(
    dump: &[u8],
    g: Geometry,
    rows: &[u64],
    listed: u32,
    i: usize,
    buf: &mut [u8],
    at: usize,
) -> usize
    ensures { Put (row_lines g dump.now rows.now listed i) buf.old at buf.new result }
{
    if i < listed as usize {
        return put_path_lines(dump, g, rows, i, buf, at);
    }
    put_reason_lines(dump, g, row_at(rows, i), buf, at)
}

// Puts the lines of all rows.
fn put_lines(
    dump: &[u8],
    g: Geometry,
    rows: &[u64],
    listed: u32,
    buf: &mut [u8],
    at: usize,
) -> usize
    ensures { Put (rows_text g dump.now rows.now listed) buf.old at buf.new result }
{
    let mut next = at;
    for i in 0..rows.len() {
        next = put_row_lines(dump, g, rows, listed, i, buf, next);
    }
    next
}

// Puts the path of row i, if there is such a row.
fn put_path_at(dump: &[u8], g: Geometry, rows: &[u64], i: usize, buf: &mut [u8], at: usize) -> usize
    ensures { Put (path_at g dump.now rows.now i) buf.old at buf.new result }
{
    if i < rows.len() {
        return put_path(dump, g, rows, MOST_DEPTH, i, buf, at);
    }
    at
}

// Writes the lines of all rows, if they fit. This and the next measure on no bytes; as one function with a closure they would need a contract of what
// the closure puts, longer than the two.
fn write_lines(
    dump: &[u8],
    g: Geometry,
    rows: &[u64],
    listed: u32,
    buf: &mut [u8],
) -> Result<usize, written::Short>
    ensures value { result ≡ written_by (length buf.old) (rows_text g dump.now rows.now listed) }
    ensures buf_after { buf.new ≡ bytes_by (rows_text g dump.now rows.now listed) buf.old }
{
    let need = put_lines(dump, g, rows, listed, &mut buf[..0], 0);
    if buf.len() < need {
        return Err(written::Short { needed: need });
    }
    put_lines(dump, g, rows, listed, buf, 0);
    Ok(need)
}

// Writes the path of row i, if it fits.
fn write_path(
    dump: &[u8],
    g: Geometry,
    rows: &[u64],
    i: usize,
    buf: &mut [u8],
) -> Result<usize, written::Short>
    ensures value { result ≡ written_by (length buf.old) (path_at g dump.now rows.now i) }
    ensures buf_after { buf.new ≡ bytes_by (path_at g dump.now rows.now i) buf.old }
{
    let need = put_path_at(dump, g, rows, i, &mut buf[..0], 0);
    if buf.len() < need {
        return Err(written::Short { needed: need });
    }
    put_path_at(dump, g, rows, i, buf, 0);
    Ok(need)
}

// The answer by what became of a text. A From would have to stand in a crate that has neither type.
#[tactic(auto, using(crate::proofs::Tests::cases))]
fn texted_by(w: Result<usize, written::Short>) -> Texted
    ensures { result ≡ texted_by w }
{
    match w {
        Ok(n) => Ok(n as u64),
        Err(e) => Err(Short {
            refusal: Refusal::ShortBuffer,
            need: e.needed as u64,
        }),
    }
}

// Writes the text of rows, of which so many are of the first list, if it fits.
#[tactic(auto, using(crate::proofs::Tests::cases), unfolding(crate::specs::Texts::texted_on, crate::specs::Texts::texted_left))]
pub fn text(dump: &[u8], g: Geometry, rows: &[u64], listed: u32, buf: &mut [u8]) -> Texted
    ensures value { result ≡ text_on g dump.now rows.now listed (length buf.old) }
    ensures buf_after { buf.new ≡ text_left g dump.now rows.now listed buf.old }
{
    g.opened(dump.len())?;
    texted_by(write_lines(dump, g, rows, listed, buf))
}

// Writes the path of a row, if it fits; no bytes where there is no such row.
#[tactic(auto, using(crate::proofs::Tests::cases), unfolding(crate::specs::Texts::texted_on, crate::specs::Texts::texted_left))]
pub fn path(dump: &[u8], g: Geometry, rows: &[u64], row: u32, buf: &mut [u8]) -> Texted
    ensures value { result ≡ path_on g dump.now rows.now row (length buf.old) }
    ensures buf_after { buf.new ≡ path_left g dump.now rows.now row buf.old }
{
    g.opened(dump.len())?;
    texted_by(write_path(dump, g, rows, row as usize, buf))
}
