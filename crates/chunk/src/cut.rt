// Where a header cuts its file, and what a cut does to the copy of a chunk.
ghost use Rattle.std.specs.Prelude.{◌≡◌};
ghost use Rattle.page.specs.declared.record.Record.TheVariants as Record;
ghost use Rattle.chunk.specs.Cuts.{cut_of, lower, hides, leaves};

use crate::record::{FILE, gone_under};
use page::record::Header;

// The place in a file where it is cut, if it is.
pub type Cut = Option<u64>;

// The lower of two cuts.
pub fn lower(cut: Cut, other: Cut) -> Cut
    ensures { result ≡ lower cut other }
{
    match (cut, other) {
        (Some(a), Some(b)) => Some(a.min(b)),
        (None, other) => other,
        (cut, None) => cut,
    }
}

// Whether a cut hides what begins at a place: it is at or below that.
pub fn hides(cut: Cut, place: u64) -> bool
    ensures { result ≡ hides cut place }
{
    match cut {
        None => false,
        Some(a) => a <= place,
    }
}

// How many of so many bytes from a place on a cut leaves.
pub fn leaves(cut: Cut, place: u64, bytes: u32) -> u32
    ensures { result ≡ leaves cut place bytes }
{
    match cut {
        None => bytes,
        Some(a) => a.saturating_sub(place).min(bytes as u64) as u32,
    }
}

// Where a header cuts, which is the newest or not: what is known of the header, and no choice of a step.
#[tactic(auto, unfolding(crate::specs::Cuts::cut_of))]
pub fn cut_of(newest: bool, h: Header) -> Cut
    ensures { result ≡ cut_of newest (Record.Header h) }
{
    if gone_under(h.parent) {
        return Some(0);
    }
    if h.page_type == FILE && (h.shrink || newest) {
        return Some(h.size as u64);
    }
    None
}
