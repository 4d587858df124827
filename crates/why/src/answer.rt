// What is answered of a byte and of a whole file.
use crate::reason::Reason;

// The reason of a byte, and the position up to which it and its page hold.
#[derive(Clone, Copy)]
pub struct Why {
    pub reason: Reason,
    pub until: u64,
}

// The size of a file, and how many rows its spans are.
#[derive(Clone, Copy)]
pub struct Spans {
    pub size: u64,
    pub rows: u32,
}
