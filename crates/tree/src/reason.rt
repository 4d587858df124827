// Why an object is not in the tree: where the way up its parents stops.
ghost use Rattle.std.specs.Prelude.{◌≡◌};
ghost use Rattle.tree.specs.Rows.{number_of, reason_at};

#[derive(Clone, Copy, PartialEq, Eq)]
pub enum Reason {
    // at the root, but from too far below
    TooDeep = 1,
    // at the object itself, or at one that was met before
    Loop = 2,
    // at a parent that has no header
    Missing = 3,
    // at one that is unlinked or deleted
    Deleted = 4,
    // at one that is no directory
    NonDirectory = 5,
}

impl Reason {
    // The number of a reason.
    pub fn number(self) -> u32
        ensures { result ≡ number_of self }
    {
        self as u32
    }
}

// The reason of a number.
impl From<u32> for Reason {
    ghost from_gives = { λ number r. r ≡ reason_at number };

    #[tactic(auto, using(crate::proofs::Tests::cases), unfolding(crate::specs::Rows::reason_at))]
    fn from(number: u32) -> Reason
        ensures { result ≡ reason_at number }
    {
        match number {
            1 => Reason::TooDeep,
            2 => Reason::Loop,
            3 => Reason::Missing,
            4 => Reason::Deleted,
            _ => Reason::NonDirectory,
        }
    }
}
