// Which data a file shows, and how much of it, at a place in a walk down its chain.
ghost use Rattle.std.specs.Prelude.{◌≡◌};
ghost use Rattle.page.specs.declared.record.Record.TheVariants as said;
ghost use Rattle.chunk.specs.Lookups.{shown_of, valid_of};
ghost use Rattle.file.specs.Shows.{is_met};

use chunk::cut::{Cut, hides};
use chunk::lookup::{shown_of, valid_of};
use chunk::record::base_of;
use page::record::Data;

// Whether the file, of so many chunks, has the chunk of this data, and the lowest cut of newer headers does not hide it.
pub(crate) fn is_met(chunks: u32, data: u32, cut: Cut, d: Data) -> bool
    ensures { result ≡ is_met «data» chunks cut d.chunk.0 }
{
    0 < d.chunk.0 && d.chunk.0 <= chunks && !hides(cut, base_of(data, d.chunk))
}

// How many bytes of this data are valid in a file of this size, under the lowest cut of newer headers.
pub(crate) fn valid_in(data: u32, size: u64, cut: Cut, d: Data) -> u32
    ensures { result ≡ valid_of «data» d.chunk.0 (said.Data d) (shown_of «data» d.chunk.0 size) cut }
{
    let base = base_of(data, d.chunk);
    valid_of(d.count, shown_of(data, size, base), cut, base)
}
