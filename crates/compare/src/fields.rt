// The header fields that are compared, and the lines of those that differ.
ghost use Rattle.std.specs.Prelude.{map};
ghost use Rattle.sort.specs.Lists.{joined};
ghost use Rattle.chunk.specs.Live.{passed};
ghost use Rattle.text.specs.Put.{Put};
ghost use Rattle.compare.specs.Differences.{field, field_differs};
ghost use Rattle.compare.specs.Fields.{fields, place_of};
ghost use Rattle.compare.specs.Report.{lines_of};
ghost use Rattle.compare.specs.Lines.{field_lines};

use crate::bytes::differ;
use crate::part::part;
use page::fields::Fields;
use text::put::put_line;

// Where each begins, and how many bytes it has.
const FIELDS: [(usize, usize); 18] = [
    (Fields::TYPE, 4),
    (Fields::PARENT, 4),
    (Fields::NAME, 256),
    (Fields::MODE, 4),
    (Fields::UID, 4),
    (Fields::GID, 4),
    (Fields::ACCESSED, 4),
    (Fields::MODIFIED, 4),
    (Fields::CREATED, 4),
    (Fields::FILE_SIZE, 4),
    (Fields::EQUIVALENT_ID, 4),
    (Fields::ALIAS, 160),
    (Fields::RDEV, 4),
    (Fields::WIN_CREATED, 8),
    (Fields::WIN_ACCESSED, 8),
    (Fields::WIN_MODIFIED, 8),
    (Fields::SHADOWED_ID, 4),
    (Fields::SHRINK, 4),
];

// Puts the line of a field, if it differs.
fn put_field(
    one: &[u8],
    other: &[u8],
    place: usize,
    length: usize,
    buf: &mut [u8],
    at: usize,
) -> usize
    ensures { Put (field_lines one.now other.now place length) buf.old at buf.new result }
{
    if differ(part(one, place, length), part(other, place, length)) {
        put_line(buf, at, b"field=", place as u64)
    } else {
        at
    }
}

// Puts the lines of the fields that differ between two headers.
#[tactic(auto, using(crate::proofs::Tests::cases, text::proofs::Putting::kept))]
pub(crate) fn put_fields(one: &[u8], other: &[u8], buf: &mut [u8], at: usize) -> usize
    ensures { Put (joined lines_of (map field (passed (field_differs one.now other.now) place_of fields))) buf.old at buf.new result }
{
    let mut next = at;
    for &(place, length) in &FIELDS {
        next = put_field(one, other, place, length, buf, next);
    }
    next
}
