// The records of an object, on a dump alone, at a moment: how each stands, and what the file was after each. The oldest comes first.
ghost use Rattle.std.specs.Prelude.{◌≡◌, min, length};
ghost use Rattle.sort.specs.Packed.{key_of};
ghost use Rattle.records.specs.Answers.{recorded_on, standing_left, details_left, work_left, history_left, sizes_left};
ghost use Rattle.records.specs.Rows.{standing_of};
ghost use Rattle.capi.specs.Layouts.{geometry_at};
ghost use Rattle.capi.specs.Moments.{moment_at};
ghost use Rattle.capi.specs.Recording.{records_answer, standing_answer, history_answer};

use crate::layout::{Geometry, geometry_at};
use crate::moment::moment_at;
use page::number::ObjectId;
use records::history::history;
use records::standing::Standing;
use records::stands::stands;
use records::written::Recorded;
use sort::rows::{key_of, value_of};

// How many records an object has. Beside ShortBuffer `need` is that number, which is how many words each slice needs, and 0 else.
#[repr(C)]
#[derive(Clone, Copy, Default)]
pub struct RecordsAnswer {
    pub refusal: u32,
    pub need: u32,
    pub count: u32,
}

// How a record stands: its page, the number of the kind, the page that supersedes or cuts it, and from where up to where it holds bytes of the file.
#[repr(C)]
#[derive(Clone, Copy, Default)]
pub struct StandingAnswer {
    pub from: u64,
    pub until: u64,
    pub page: u32,
    pub stands: u32,
    pub by: u32,
}

// What the file was after a record: the record's page, the size, or the number of the refusal.
#[repr(C)]
#[derive(Clone, Copy, Default)]
pub struct HistoryAnswer {
    pub size: u64,
    pub page: u32,
    pub refusal: u32,
}

impl From<Recorded> for RecordsAnswer {
    ghost from_gives = { λ a r. r ≡ records_answer a };

    fn from(answer: Recorded) -> RecordsAnswer
        ensures { result ≡ records_answer answer }
    {
        match answer {
            Err(e) => RecordsAnswer {
                refusal: e.refusal.number(),
                need: e.need,
                ..RecordsAnswer::default()
            },
            Ok(count) => RecordsAnswer {
                count,
                ..RecordsAnswer::default()
            },
        }
    }
}

fn standing_answer(data: u32, page: u32, s: Standing) -> StandingAnswer
    ensures { result ≡ standing_answer «data» page s }
{
    StandingAnswer {
        from: s.from(data),
        until: s.until(data),
        page,
        stands: s.kind(),
        by: s.by(),
    }
}

// How each record of an object stands: a row for each, and beside it a second word. As many words of the last slice are cleared, words past those stay,
// and a refusal writes nothing.
pub fn lohenarr_dump_stands(
    dump: &[u8],
    geometry: Geometry,
    before: u32,
    object: u32,
    rows: &mut [u64],
    details: &mut [u64],
    work: &mut [u64],
) -> RecordsAnswer
    ensures value { result ≡ records_answer (recorded_on (geometry_at geometry) dump.now (moment_at before) object
        (min (length rows.old) (min (length details.old) (length work.old)))) }
    ensures rows_after { rows.new ≡ standing_left (geometry_at geometry) dump.now (moment_at before) object
        (min (length rows.old) (min (length details.old) (length work.old))) rows.old }
    ensures details_after { details.new ≡ details_left (geometry_at geometry) dump.now (moment_at before) object
        (min (length rows.old) (min (length details.old) (length work.old))) details.old }
    ensures work_after { work.new ≡ work_left (geometry_at geometry) dump.now (moment_at before) object
        (min (length rows.old) (min (length details.old) (length work.old))) work.old }
{
    stands(
        dump,
        geometry_at(geometry),
        moment_at(before),
        ObjectId(object),
        rows,
        details,
        work,
    )
    .into()
}

// How the record stands that a row and its second word tell.
pub fn lohenarr_standing(geometry: Geometry, row: u64, detail: u64) -> StandingAnswer
    ensures { result ≡ standing_answer (geometry_at geometry).layout.«data» (key_of row) (standing_of row detail) }
{
    let g = geometry_at(geometry);
    standing_answer(g.layout.data, key_of(row), Standing::of(row, detail))
}

// What the file of an object was after each of its records: a row for each, and beside it the size. Words past those stay, and a refusal writes nothing.
pub fn lohenarr_dump_history(
    dump: &[u8],
    geometry: Geometry,
    before: u32,
    object: u32,
    rows: &mut [u64],
    sizes: &mut [u64],
) -> RecordsAnswer
    ensures value { result ≡ records_answer (recorded_on (geometry_at geometry) dump.now (moment_at before) object
        (min (length rows.old) (length sizes.old))) }
    ensures rows_after { rows.new ≡ history_left (geometry_at geometry) dump.now (moment_at before) object
        (min (length rows.old) (length sizes.old)) rows.old }
    ensures sizes_after { sizes.new ≡ sizes_left (geometry_at geometry) dump.now (moment_at before) object
        (min (length rows.old) (length sizes.old)) sizes.old }
{
    history(
        dump,
        geometry_at(geometry),
        moment_at(before),
        ObjectId(object),
        rows,
        sizes,
    )
    .into()
}

// What a row of a history and the size beside it tell.
pub fn lohenarr_history_row(row: u64, size: u64) -> HistoryAnswer
    ensures { result ≡ history_answer row size }
{
    HistoryAnswer {
        size,
        page: key_of(row),
        refusal: value_of(row),
    }
}
