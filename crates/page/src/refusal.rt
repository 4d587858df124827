// Why a call refuses, by document 01's numbered table.
ghost use Rattle.std.specs.Prelude.{◌≡◌};
ghost use Rattle.page.specs.Refusals.{refusal_number};

#[derive(Clone, Copy, PartialEq, Eq)]
pub enum Refusal {
    BadLayout = 1,
    BadLength = 2,
    NoLayout = 3,
    BadObject = 4,
    BadChunk = 5,
    NoObject = 6,
    NoHeader = 7,
    Deleted = 8,
    NotAFile = 9,
    PastEnd = 10,
    ShortBuffer = 11,
    ShortIndex = 12,
    IndexDamaged = 13,
    BadPage = 14,
    AlreadyAdded = 15,
    NotHeader = 16,
}

impl Refusal {
    // The refusal's number in the table.
    pub fn number(self) -> u32
        ensures { result ≡ refusal_number self }
    {
        self as u32
    }
}

// A refusal, and how many words or bytes ShortBuffer needs; 0 beside any other.
#[derive(Clone, Copy)]
pub struct Short<N> {
    pub refusal: Refusal,
    pub need: N,
}

impl From<Refusal> for Short<u32> {
    ghost from_gives = { λ r s. s ≡ record { refusal = r; need = 0 } };

    fn from(refusal: Refusal) -> Short<u32>
        ensures { result ≡ record { refusal = refusal; need = 0 } }
    {
        Short { refusal, need: 0 }
    }
}

impl From<Refusal> for Short<u64> {
    ghost from_gives = { λ r s. s ≡ record { refusal = r; need = 0 } };

    fn from(refusal: Refusal) -> Short<u64>
        ensures { result ≡ record { refusal = refusal; need = 0 } }
    {
        Short { refusal, need: 0 }
    }
}
