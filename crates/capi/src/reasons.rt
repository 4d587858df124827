// Why the bytes of a file are what they are, on a dump alone, at a moment: the dump as it stands, or as it stood before the record on a page was
// written.
ghost use Rattle.std.specs.Prelude.{◌≡◌, length};
ghost use Rattle.why.specs.Answers.{span_of, why_on, why_left, spans_on, spans_left};
ghost use Rattle.capi.specs.Layouts.{geometry_at};
ghost use Rattle.capi.specs.Moments.{moment_at};
ghost use Rattle.capi.specs.Reasons.{why_answer, spans_answer, span_answer};

use crate::layout::{Geometry, geometry_at};
use crate::moment::moment_at;
use page::number::ObjectId;
use page::refusal::Short;
use why::answer::{Spans, Why};
use why::byte::{Span, shown, why};
use why::spans::spans;

// Why a byte is what it is: the number of the reason's kind, the page that it goes by, the data byte of a held one, the byte that is shown, and up to
// where the reason and its page hold. Beside ShortBuffer `need` is how many words it needs, and 0 else.
#[repr(C)]
#[derive(Clone, Copy, Default)]
pub struct WhyAnswer {
    pub refusal: u32,
    pub need: u32,
    pub reason: u32,
    pub page: u32,
    pub byte: u32,
    pub value: u32,
    pub until: u64,
}

// The size of a file and how many rows its spans are. Beside ShortBuffer `need` is how many words it needs, and 0 else.
#[repr(C)]
#[derive(Clone, Copy, Default)]
pub struct SpansAnswer {
    pub refusal: u32,
    pub need: u32,
    pub size: u64,
    pub count: u32,
}

// A span of a file: where it begins, the number of the reason's kind, the page that it goes by, and the data byte of a held one.
#[repr(C)]
#[derive(Clone, Copy, Default)]
pub struct SpanAnswer {
    pub from: u64,
    pub reason: u32,
    pub page: u32,
    pub byte: u32,
}

fn why_answer(dump: &[u8], geometry: Geometry, told: Result<Why, Short<u32>>) -> WhyAnswer
    ensures { result ≡ why_answer (geometry_at geometry) dump.now told }
{
    match told {
        Err(e) => WhyAnswer {
            refusal: e.refusal.number(),
            need: e.need,
            ..WhyAnswer::default()
        },
        Ok(why) => WhyAnswer {
            reason: why.reason.kind(),
            page: why.reason.page(),
            byte: why.reason.byte(),
            value: shown(dump, geometry_at(geometry), why.reason) as u32,
            until: why.until,
            ..WhyAnswer::default()
        },
    }
}

impl From<Result<Spans, Short<u32>>> for SpansAnswer {
    ghost from_gives = { λ a r. r ≡ spans_answer a };

    fn from(answer: Result<Spans, Short<u32>>) -> SpansAnswer
        ensures { result ≡ spans_answer answer }
    {
        match answer {
            Err(e) => SpansAnswer {
                refusal: e.refusal.number(),
                need: e.need,
                ..SpansAnswer::default()
            },
            Ok(spans) => SpansAnswer {
                size: spans.size,
                count: spans.rows,
                ..SpansAnswer::default()
            },
        }
    }
}

impl From<Span> for SpanAnswer {
    ghost from_gives = { λ s r. r ≡ span_answer s };

    fn from(span: Span) -> SpanAnswer
        ensures { result ≡ span_answer span }
    {
        SpanAnswer {
            from: span.from,
            reason: span.reason.kind(),
            page: span.reason.page(),
            byte: span.reason.byte(),
        }
    }
}

// Why byte `position` of an object is what it is. The words that were needed are cleared, words past those stay, and a refusal writes nothing.
pub fn lohenarr_dump_why(
    dump: &[u8],
    geometry: Geometry,
    before: u32,
    object: u32,
    position: u64,
    rows: &mut [u64],
) -> WhyAnswer
    ensures value { result ≡ why_answer (geometry_at geometry) dump.now (why_on (geometry_at geometry) dump.now (moment_at before) object position (length rows.old)) }
    ensures rows_after { rows.new ≡ why_left (geometry_at geometry) dump.now (moment_at before) object rows.old }
{
    let t = why(
        dump,
        geometry_at(geometry),
        moment_at(before),
        ObjectId(object),
        position,
        rows,
    );
    why_answer(dump, geometry, t)
}

// The spans of a whole file, a row of one number for each, ascending. The rest of the words that were needed is cleared, words past those stay, and a
// refusal writes nothing.
pub fn lohenarr_dump_spans(
    dump: &[u8],
    geometry: Geometry,
    before: u32,
    object: u32,
    rows: &mut [u64],
) -> SpansAnswer
    ensures value { result ≡ spans_answer (spans_on (geometry_at geometry) dump.now (moment_at before) object (length rows.old)) }
    ensures rows_after { rows.new ≡ spans_left (geometry_at geometry) dump.now (moment_at before) object rows.old }
{
    spans(
        dump,
        geometry_at(geometry),
        moment_at(before),
        ObjectId(object),
        rows,
    )
    .into()
}

// The span that a row of spans tells.
pub fn lohenarr_span(geometry: Geometry, row: u64) -> SpanAnswer
    ensures { result ≡ span_answer (span_of (geometry_at geometry).layout.«data» row) }
{
    Span::of(geometry_at(geometry), row).into()
}
