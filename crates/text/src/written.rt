// Why a text that was to be written whole is not.

// The bytes lent are too few and are left alone; so many are needed.
#[derive(Clone, Copy, Debug, PartialEq, Eq)]
pub struct Short {
    pub needed: usize,
}
