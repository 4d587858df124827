// The records of an object by their chunks, so that the newest copy of a chunk is found; headers have chunk 0.
ghost use Rattle.std.specs.Prelude.{◌≡◌, ◌<◌, ◌^◌, length};
ghost use Rattle.page.specs.Records.{record_at};
ghost use Rattle.chunk.specs.Records.{chunk_of};
ghost use Rattle.chunk.specs.Takes.{seen_by};
ghost use Rattle.records.specs.Copies.{places_of, HasChunk, LastPlace};

use chunk::takes::{Takes, seen_at};
use page::geometry::Geometry;
use page::number::PageNumber;
use page::record::Record;
use sort::keys::sort;
use sort::rows::{pack, value_of};
use sort::search::first_from;

// The chunk number of a data page; 0 for another, as no chunk has it, so that the headers are one group of rows.
pub(crate) fn chunk_of(r: Record) -> u32
    ensures { result ≡ chunk_of r }
{
    match r {
        Record::Other | Record::Header(_) => 0,
        Record::Data(d) => d.chunk.0,
    }
}

// Fills words with rows of the chunk and the place of each of these ages, ascending.
#[tactic(auto, using(crate::proofs::Placing::placed_more, crate::proofs::Placing::placed_sorted))]
pub(crate) fn fill_places(dump: &[u8], g: Geometry, t: Takes, ages: &[u64], words: &mut [u64])
    requires words_len { length words.old ≡ length ages.now }
    requires ages_len_bound { length ages.now < 2 ^ 32 }
    ensures { words.new ≡ places_of (seen_by t (record_at g dump.now)) ages.now }
{
    for (i, &age) in ages.iter().enumerate() {
        let p = PageNumber(value_of(age));
        words[i] = pack(chunk_of(seen_at(dump, g, t, p)), i as u32);
    }
    sort(words, ages.len());
}

// The last place of a chunk among such rows, which have one.
pub(crate) fn last_place(rows: &[u64], chunk: u32) -> usize
    requires { HasChunk chunk rows.now }
    ensures { LastPlace chunk rows.now result }
{
    let i = first_from(rows, pack(chunk, u32::MAX));
    value_of(rows[i - 1]) as usize
}
