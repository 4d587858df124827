// What is asked of two dumps, and what became of the report.
use page::number::ObjectId;
use page::refusal::Short;

// Which report is asked for: that of all objects, or that of one. An Option would not say which of the two `None` is.
#[derive(Clone, Copy)]
pub enum Which {
    All,
    One(ObjectId),
}

// How many bytes were written; or a refusal, with the bytes that ShortBuffer needs.
pub type Compared = Result<u64, Short<u64>>;
