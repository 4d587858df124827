// How the records of an object stand, and what the file was after each.
ghost use Rattle.std.specs.Prelude.{◌≡◌, min, length};
ghost use Rattle.sort.specs.Packed.{key_of};
ghost use Rattle.records.specs.Answers.{recorded_on, standing_left, details_left, work_left, history_left, sizes_left};
ghost use Rattle.records.specs.Rows.{standing_of};
ghost use Rattle.capi.specs.Layouts.{geometry_at};
ghost use Rattle.capi.specs.Moments.{moment_at};
ghost use Rattle.capi.specs.Recording.{records_answer, standing_answer, history_answer};

use capi::layout::Geometry;
use capi::recording::{HistoryAnswer, RecordsAnswer, StandingAnswer};

// How each record of an object stands: a row for each, and beside it a second word. As many words of the last slice are cleared, words past those stay,
// and a refusal writes nothing.
#[unsafe(no_mangle)]
pub extern "C" fn lohenarr_dump_stands(
    dump: &[u8],
    geometry: Geometry,
    before: u32,
    object: u32,
    rows: &mut [u64],
    details: &mut [u64],
    work: &mut [u64],
) -> RecordsAnswer
    ensures value { result ≡ records_answer (recorded_on (geometry_at geometry) dump.now (moment_at before) object
        (min (length rows.old) (min (length details.old) (length work.old)))) }
    ensures rows_after { rows.new ≡ standing_left (geometry_at geometry) dump.now (moment_at before) object
        (min (length rows.old) (min (length details.old) (length work.old))) rows.old }
    ensures details_after { details.new ≡ details_left (geometry_at geometry) dump.now (moment_at before) object
        (min (length rows.old) (min (length details.old) (length work.old))) details.old }
    ensures work_after { work.new ≡ work_left (geometry_at geometry) dump.now (moment_at before) object
        (min (length rows.old) (min (length details.old) (length work.old))) work.old }
{
    capi::recording::lohenarr_dump_stands(dump, geometry, before, object, rows, details, work)
}

// How the record stands that a row and its second word tell.
#[unsafe(no_mangle)]
pub extern "C" fn lohenarr_standing(geometry: Geometry, row: u64, detail: u64) -> StandingAnswer
    ensures { result ≡ standing_answer (geometry_at geometry).layout.«data» (key_of row) (standing_of row detail) }
{
    capi::recording::lohenarr_standing(geometry, row, detail)
}

// What the file of an object was after each of its records: a row for each, and beside it the size. Words past those stay, and a refusal writes nothing.
#[unsafe(no_mangle)]
pub extern "C" fn lohenarr_dump_history(
    dump: &[u8],
    geometry: Geometry,
    before: u32,
    object: u32,
    rows: &mut [u64],
    sizes: &mut [u64],
) -> RecordsAnswer
    ensures value { result ≡ records_answer (recorded_on (geometry_at geometry) dump.now (moment_at before) object
        (min (length rows.old) (length sizes.old))) }
    ensures rows_after { rows.new ≡ history_left (geometry_at geometry) dump.now (moment_at before) object
        (min (length rows.old) (length sizes.old)) rows.old }
    ensures sizes_after { sizes.new ≡ sizes_left (geometry_at geometry) dump.now (moment_at before) object
        (min (length rows.old) (length sizes.old)) sizes.old }
{
    capi::recording::lohenarr_dump_history(dump, geometry, before, object, rows, sizes)
}

// What a row of a history and the size beside it tell.
#[unsafe(no_mangle)]
pub extern "C" fn lohenarr_history_row(row: u64, size: u64) -> HistoryAnswer
    ensures { result ≡ history_answer row size }
{
    capi::recording::lohenarr_history_row(row, size)
}
