// The replay: reads test vectors of at most 65,536 bytes together from standard input, and prints what the proved calls answer on each. A vector
// is a byte for the pages of a block, three for a length, little-endian, and a dump of that length; a last one that is not whole is passed over.
// Where a read fails nothing is printed but a sentence on standard error.
#![tactic(auto)]

ghost use Rattle.std.specs.Prelude.{◌≤◌, ◌<◌, ◌^◌, length, IfSome};

use chunk::answer::{Chunk, Looked, Sized};
use file::table::table;
use index::additions::{add, start};
use index::cells::{PER_PAGE, SHARED, link_at};
use index::list::list;
use index::lookups::{chunk, size};
use input::read_all;
use page::find::find;
use page::geometry::Geometry;
use page::number::{ChunkNumber, ObjectId, PageNumber};
use page::refusal::{Refusal, Short};
use summary::report::{LONGEST, write_report};
use text::put::{put_field, put_line};

// The most bytes of vectors that are read, and one more, by which a longer input is told.
const MOST: usize = 65536;
// The bytes of a vector before its dump.
const AHEAD: usize = 4;
// The words of an index of 124 pages, as many of the smallest as the input has room for.
const CELLS: usize = SHARED + PER_PAGE * 124;
// The last chunk that each object is asked for.
const CHUNKS: u32 = 6;
// An object that every dump is asked for, live or not.
const ALWAYS: u32 = 300;

// The most bytes of a name, a number and the end of a line: no name here has more than 8, and no number more than 20.
const PART: usize = 32;

// Prints a text that was put into bytes and has this end; stored output would show one that they had no room for, so that the end is no length of
// theirs. A write that fails is passed over.
fn print(rt: &impl Print, bytes: &[u8], end: usize) {
    if end <= bytes.len() {
        let _ = rt.write_all(&bytes[..end]);
    }
}

// A name and a number, with more to come on their line; text has the two forms, this and the next.
fn put(rt: &impl Print, name: &[u8], n: u64) {
    let mut text = [0u8; PART];
    let end = put_field(&mut text, 0, name, n);
    print(rt, &text, end);
}

// A name and a number that end their line.
fn line(rt: &impl Print, name: &[u8], n: u64) {
    let mut text = [0u8; PART];
    let end = put_line(&mut text, 0, name, n);
    print(rt, &text, end);
}

// The one line of a refusal.
fn refuse(rt: &impl Print, r: Refusal) {
    line(rt, b"refusal=", r.number() as u64);
}

// The report of a dump.
fn report_lines(rt: &impl Print, dump: &[u8], k: u32) {
    let mut text = [0u8; LONGEST];
    if let Ok(n) = write_report(dump, k, &mut text) {
        print(rt, &text, n);
    }
}

// A refusal with the records visited; the other lines of a refusal have other numbers.
fn refused_line(rt: &impl Print, r: Refusal, visits: u32) {
    put(rt, b"refusal=", r.number() as u64);
    line(rt, b" visits=", visits as u64);
}

// A refusal with the words that a short buffer needs.
fn short_line(rt: &impl Print, e: Short<u32>) {
    put(rt, b"refusal=", e.refusal.number() as u64);
    line(rt, b" need=", e.need as u64);
}

// A size with the records visited.
fn size_line(rt: &impl Print, s: Sized) {
    match s {
        Ok(size) => {
            put(rt, b"size=", size.answer);
            line(rt, b" visits=", size.visits as u64);
        }
        Err(e) => refused_line(rt, e.answer, e.visits),
    }
}

// What a chunk's line says behind its place.
fn lengths_line(rt: &impl Print, valid: u32, shown: u32, visits: u32) {
    put(rt, b" valid=", valid as u64);
    put(rt, b" shown=", shown as u64);
    line(rt, b" visits=", visits as u64);
}

// A chunk's place with its lengths and the records visited.
fn chunk_line(rt: &impl Print, a: Looked) {
    match a {
        Ok(Chunk::Hole { shown, visits }) => {
            print(rt, b"hole", 4);
            lengths_line(rt, 0, shown, visits);
        }
        Ok(
            Chunk::Copy {
                page,
                valid,
                shown,
                visits,
            },
        ) => {
            put(rt, b"page=", page.0 as u64);
            lengths_line(rt, valid, shown, visits);
        }
        Err(e) => refused_line(rt, e.answer.refusal, e.visits),
    }
}

// A start or an addition says nothing, unless it is refused.
fn added_line(rt: &impl Print, a: Result<(), Refusal>) {
    if let Err(r) = a {
        refuse(rt, r);
    }
}

// The lines of chunks 1 to 6 of an object.
fn chunk_lines(rt: &impl Print, dump: &[u8], g: Geometry, cells: &[u32], o: ObjectId) {
    for c in 1..=CHUNKS {
        chunk_line(rt, chunk(dump, g, cells, o, ChunkNumber(c)));
    }
}

// The word with this place; 0 past the end, which stored output would show.
fn word_at(words: &[u32], i: usize) -> u32 {
    words.get(i).copied().unwrap_or(0)
}

// The line of a row of a table.
fn row_line(rt: &impl Print, words: &[u32], r: u32) {
    let i = 2 * (r as usize);
    put(rt, b"row=", word_at(words, i) as u64);
    line(rt, b"/", word_at(words, i + 1) as u64);
}

// The lines of so many rows of a table.
fn row_lines(rt: &impl Print, words: &[u32], count: u32) {
    for r in 0..count {
        row_line(rt, words, r);
    }
}

// The lines of a file's table, or of its refusal where the table has more than 32 rows.
fn table_lines(rt: &impl Print, dump: &[u8], g: Geometry, cells: &[u32], o: ObjectId) {
    let mut words = [0u32; 64];
    match table(dump, g, cells, o, &mut words) {
        Ok(t) => row_lines(rt, &words, t.rows),
        Err(e) => short_line(rt, e),
    }
}

// The lines of an object.
fn object_lines(rt: &impl Print, dump: &[u8], g: Geometry, cells: &[u32], o: ObjectId) {
    line(rt, b"object=", o.0 as u64);
    size_line(rt, size(dump, g, cells, o));
    chunk_lines(rt, dump, g, cells, o);
    table_lines(rt, dump, g, cells, o);
}

// The lines of so many listed objects, as the call that wrote the ids has told their number.
fn listed_lines(rt: &impl Print, dump: &[u8], g: Geometry, cells: &[u32], ids: &[u32], count: u32) {
    for &o in ids.iter().take(count as usize) {
        object_lines(rt, dump, g, cells, ObjectId(o));
    }
}

// The lines of the live objects: no more than the 124 smallest pages that the input has room for.
fn live_lines(rt: &impl Print, dump: &[u8], g: Geometry, cells: &[u32]) {
    let mut ids = [0u32; 128];
    match list(dump, g, cells, &mut ids) {
        Ok(count) => listed_lines(rt, dump, g, cells, &ids, count),
        Err(e) => short_line(rt, e),
    }
}

// Adds all pages, the last first, so that additions walk down the chains.
fn add_pages(rt: &impl Print, dump: &[u8], g: Geometry, pages: u32, cells: &mut [u32]) {
    for p in (0..pages).rev() {
        added_line(rt, add(dump, g, cells, PageNumber(p)));
    }
}

// The line of the four words of a page in an index: its link, and three of the table of objects.
fn cell_line(rt: &impl Print, cells: &[u32], p: u32) {
    let i = link_at(PageNumber(p));
    put(rt, b"link=", word_at(cells, i) as u64);
    put(rt, b" table=", word_at(cells, i + 1) as u64);
    put(rt, b"/", word_at(cells, i + 2) as u64);
    line(rt, b"/", word_at(cells, i + 3) as u64);
}

// The lines of an index of so many pages.
fn cell_lines(rt: &impl Print, cells: &[u32], pages: u32) {
    for p in 0..pages {
        cell_line(rt, cells, p);
    }
}

// The lines of a dump whose layout was found: an index on the words lent, whatever they held, and the objects by it.
fn dump_lines(rt: &impl Print, dump: &[u8], g: Geometry, cells: &mut [u32]) {
    let Ok(pages) = g.opened(dump.len()) else {
        return;
    };
    added_line(rt, start(dump, g, cells, 0));
    add_pages(rt, dump, g, pages, cells);
    cell_lines(rt, cells, pages);
    live_lines(rt, dump, g, cells);
    object_lines(rt, dump, g, cells, ObjectId(ALWAYS));
}

// The lines of a dump in blocks of so many pages: its report and, where its layout is found, all else.
fn found_lines(rt: &impl Print, dump: &[u8], block: u8, cells: &mut [u32]) {
    let k = block as u32;
    report_lines(rt, dump, k);
    if let Ok(layout) = find(dump, k) {
        dump_lines(rt, dump, Geometry { layout, block: k }, cells);
    }
}

// The length that three bytes name, little-endian.
fn length_of(a: u8, b: u8, c: u8) -> usize
    ensures { result < 2 ^ 24 }
{
    u32::from_le_bytes([a, b, c, 0]) as usize
}

// The lines of the first vector, and how many bytes it has, if it is whole.
fn vector_lines(rt: &impl Print, input: &[u8], number: u64, cells: &mut [u32]) -> Option<usize>
    ensures { IfSome result (λ n. (0 < n) × (n ≤ length input.now)) }
{
    if input.len() < AHEAD {
        return None;
    }
    let end = AHEAD + length_of(input[1], input[2], input[3]);
    if input.len() < end {
        return None;
    }
    line(rt, b"vector=", number);
    found_lines(rt, &input[AHEAD..end], input[0], cells);
    Some(end)
}

// The lines of all vectors.
fn all_lines(rt: &impl Print, input: &[u8], cells: &mut [u32]) {
    let mut at: usize = 0;
    let mut number: u64 = 0;
    while at < input.len() {
        let Some(passed) = vector_lines(rt, &input[at..], number, cells) else {
            return;
        };
        at += passed;
        number += 1;
    }
}

// The lines of an input.
fn input_lines(rt: &impl Print, input: &[u8]) {
    if MOST < input.len() {
        refuse(rt, Refusal::BadLength);
        return;
    }
    let mut cells = [0u32; CELLS];
    all_lines(rt, input, &mut cells);
}

fn main(rt: HostRuntime) {
    let mut buffer = [0u8; MOST + 1];
    match read_all(&mut rt.stdin(), &mut buffer) {
        Ok(n) => input_lines(&rt, &buffer[..n]),
        Err(_) => {
            let _ = rt.eprintln("replay: the input could not be read");
        }
    }
}
