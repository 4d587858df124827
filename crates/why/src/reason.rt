// Why a byte of a file is what it is: one of five reasons, with the page that it goes by.
ghost use Rattle.std.specs.Prelude.{◌≡◌, ◌<◌};
ghost use Rattle.why.specs.Codes.{kind_of, page_in, byte_in, code_values, code_of, reason_of};

use page::number::PageNumber;

// Held by a page at a data byte; zero because its chunk has no copy, because the header on a page cut it, or because the byte count of the copy on a
// page ends before it; or past the end, which a page sets.
#[derive(Clone, Copy)]
pub enum Reason {
    Held(PageNumber, u32),
    NoCopy,
    Cut(PageNumber),
    Count(PageNumber),
    PastEnd(PageNumber),
}

// How many kinds of reason a code tells apart.
const KIND_VALUES: u64 = 8;

impl Reason {
    // The number of its kind, as C is told it; a reason has values, so that no cast gives it.
    pub fn kind(self) -> u32
        ensures { result ≡ kind_of self }
    {
        match self {
            Reason::Held(_, _) => 1,
            Reason::NoCopy => 2,
            Reason::Cut(_) => 3,
            Reason::Count(_) => 4,
            Reason::PastEnd(_) => 5,
        }
    }

    // The page that it goes by; 0 where there is none, as C is told.
    pub fn page(self) -> u32
        ensures { result ≡ page_in self }
    {
        match self {
            Reason::Held(p, _) | Reason::Cut(p) | Reason::Count(p) | Reason::PastEnd(p) => p.0,
            Reason::NoCopy => 0,
        }
    }

    // The data byte of a held one; 0 of another, as C is told.
    pub fn byte(self) -> u32
        ensures { result ≡ byte_in self }
    {
        match self {
            Reason::Held(_, at) => at,
            Reason::NoCopy | Reason::Cut(_) | Reason::Count(_) | Reason::PastEnd(_) => 0,
        }
    }

    // Its kind and its page as one number, which stays the same as long as both do: a part of a row's word, which the caller lends.
    pub(crate) fn code(self) -> u64
        ensures { result ≡ code_of self }
    {
        u64::from(self.page()) * KIND_VALUES + u64::from(self.kind())
    }

    // The reason of a code, at a data byte: of two numbers, so that no From gives it.
    #[tactic(auto, using(crate::proofs::Tests::cases), unfolding(crate::specs::Codes::reason_of))]
    pub(crate) fn of(code: u64, at: u32) -> Reason
        requires { code < code_values }
        ensures { result ≡ reason_of code at }
    {
        let page = PageNumber((code / KIND_VALUES) as u32);
        match code % KIND_VALUES {
            1 => Reason::Held(page, at),
            3 => Reason::Cut(page),
            4 => Reason::Count(page),
            5 => Reason::PastEnd(page),
            _ => Reason::NoCopy,
        }
    }
}
