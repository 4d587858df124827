// What a walk over a whole file answers.

// The size of a file and how many rows its table has.
#[derive(Clone, Copy)]
pub struct Table {
    pub size: u64,
    pub rows: u32,
}

// The size of a file, how many rows its copies are, and whether the lookup of one of its chunks meets a damaged link. No Result in place of the flag:
// there are rows either way.
#[derive(Clone, Copy)]
pub struct Copies {
    pub size: u64,
    pub count: u32,
    pub damaged: bool,
}
