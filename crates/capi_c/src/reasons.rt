// Why the bytes of a file are what they are.
ghost use Rattle.std.specs.Prelude.{◌≡◌, length};
ghost use Rattle.why.specs.Answers.{span_of, why_on, why_left, spans_on, spans_left};
ghost use Rattle.capi.specs.Layouts.{geometry_at};
ghost use Rattle.capi.specs.Moments.{moment_at};
ghost use Rattle.capi.specs.Reasons.{why_answer, spans_answer, span_answer};

use capi::layout::Geometry;
use capi::reasons::{SpanAnswer, SpansAnswer, WhyAnswer};

// Why byte `position` of an object is what it is. The words that were needed are cleared, words past those stay, and a refusal writes nothing.
#[unsafe(no_mangle)]
pub extern "C" fn lohenarr_dump_why(
    dump: &[u8],
    geometry: Geometry,
    before: u32,
    object: u32,
    position: u64,
    rows: &mut [u64],
) -> WhyAnswer
    ensures value { result ≡ why_answer (geometry_at geometry) dump.now (why_on (geometry_at geometry) dump.now (moment_at before) object position (length rows.old)) }
    ensures rows_after { rows.new ≡ why_left (geometry_at geometry) dump.now (moment_at before) object rows.old }
{
    capi::reasons::lohenarr_dump_why(dump, geometry, before, object, position, rows)
}

// The spans of a whole file, a row of one number for each, ascending. The rest of the words that were needed is cleared, words past those stay, and a
// refusal writes nothing.
#[unsafe(no_mangle)]
pub extern "C" fn lohenarr_dump_spans(
    dump: &[u8],
    geometry: Geometry,
    before: u32,
    object: u32,
    rows: &mut [u64],
) -> SpansAnswer
    ensures value { result ≡ spans_answer (spans_on (geometry_at geometry) dump.now (moment_at before) object (length rows.old)) }
    ensures rows_after { rows.new ≡ spans_left (geometry_at geometry) dump.now (moment_at before) object rows.old }
{
    capi::reasons::lohenarr_dump_spans(dump, geometry, before, object, rows)
}

// The span that a row of spans tells.
#[unsafe(no_mangle)]
pub extern "C" fn lohenarr_span(geometry: Geometry, row: u64) -> SpanAnswer
    ensures { result ≡ span_answer (span_of (geometry_at geometry).layout.«data» row) }
{
    capi::reasons::lohenarr_span(geometry, row)
}
