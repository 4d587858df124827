// The lowest cut of each record of an object and those newer than it.
ghost use Rattle.std.specs.Prelude.{◌≡◌, length};
ghost use Rattle.page.specs.Records.{record_at};
ghost use Rattle.chunk.specs.Takes.{seen_by};
ghost use Rattle.records.specs.Lows.{cut_word, headless_with, low_with, lows_of};

use chunk::cut::{Cut, cut_of, lower};
use chunk::record::is_header;
use chunk::takes::{Takes, seen_at};
use page::geometry::Geometry;
use page::number::PageNumber;
use page::record::Record;
use sort::rows::value_of;

// A cut as a word, since words are what is lent: its place, or the last word for none.
#[tactic(auto, using(crate::proofs::Tests::cases))]
fn word_of(cut: Cut) -> u64
    ensures { result ≡ cut_word cut }
{
    cut.unwrap_or(u64::MAX)
}

// Whether neither a record is a header, nor one of the newer, of which this is known.
fn headless_with(r: Record, newer: bool) -> bool
    ensures { result ≡ headless_with r newer }
{
    !is_header(r) && newer
}

// The lowest cut with that of one record more, the newest header or not, as the pass knows: what index's `lower_cut` is, on which this crate does not stand.
#[tactic(auto, using(crate::proofs::Tests::cases))]
fn low_with(newest: bool, r: Record, low: Cut) -> Cut
    ensures { result ≡ low_with newest r low }
{
    match r {
        Record::Header(h) => lower(cut_of(newest, h), low),
        Record::Other | Record::Data(_) => low,
    }
}

// Fills words with the lowest cut of each record of these ages and those newer, from the newest to the oldest.
pub(crate) fn fill_lows(dump: &[u8], g: Geometry, t: Takes, ages: &[u64], words: &mut [u64])
    requires { length words.old ≡ length ages.now }
    ensures { words.new ≡ lows_of (seen_by t (record_at g dump.now)) ages.now }
{
    let mut cut = None;
    let mut newest = true;
    for i in (0..ages.len()).rev() {
        let p = PageNumber(value_of(ages[i]));
        let r = seen_at(dump, g, t, p);
        cut = low_with(newest, r, cut);
        newest = headless_with(r, newest);
        words[i] = word_of(cut);
    }
}
