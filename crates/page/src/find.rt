// Finding the layout of a dump: the candidate whose pages bear their block's sequence most often.
// A guessed candidate is gone through first, and any other is left as soon as it cannot win any more.
ghost use Rattle.std.specs.Prelude.{◌≡◌, true, ◌+◌, ◌*◌, ◌%◌, ◌<◌, ◌^◌, length};
ghost use Rattle.page.specs.Layouts.{layouts, roomy};
ghost use Rattle.page.specs.Lengths.{block_fits, length_fits};
ghost use Rattle.page.specs.Tags.{claim_at};
ghost use Rattle.page.specs.Find.{is_good, is_marked, bears_sequence, first_sequence, fitting_score, score_under, candidate_score, winner_of, find_of};
ghost use Rattle.page.specs.Leaving.{at_least, Gained, in_turn, is_lost, need_of, pages_under};

use crate::geometry::Geometry;
use crate::layout::Layout;
use crate::number::PageNumber;
use crate::refusal::Refusal;
use crate::tags::{Claim, claim_at, tags_at};

// How many blocks of a candidate are glanced at for a guess.
const GLANCES: u32 = 8;

// What a block adds to its candidate: how many of its pages bear its sequence, and how many are not blank.
#[derive(Clone, Copy)]
pub(crate) struct Gain {
    pub score: u32,
    pub marked: u32,
}

// Whether a page is not blank.
fn is_marked(claim: Claim) -> bool
    ensures { result ≡ is_marked claim }
{
    !matches!(claim, Claim::Blank)
}

// Whether a page is good.
fn is_good(claim: Claim) -> bool
    ensures { result ≡ is_good claim }
{
    matches!(claim, Claim::Header { .. } | Claim::Data(_))
}

// Whether page n is good and bears this sequence. The sequence is compared first: under a candidate that is not the dump's it mostly differs.
#[tactic(auto, unfolding(crate::specs::Tags::claim_at, crate::specs::Find::bears_sequence, crate::specs::Tags::claim_on))]
fn bears(dump: &[u8], g: Geometry, n: PageNumber, sequence: u32) -> bool
    ensures { result ≡ bears_sequence sequence (claim_at g dump.now n.0) }
{
    if !g.holds(dump.len(), n) {
        return false;
    }
    let t = tags_at(dump, g, n);
    t.sequence == sequence && is_good(t.claim(g.layout.data))
}

// The sequence of the first good page of a block, where the search ends; 0 where no page is good, as the definition says: none is there to bear it.
fn first_sequence(dump: &[u8], g: Geometry, block: u32) -> u32
    requires { block + g.block < 2 ^ 32 }
    ensures { result ≡ first_sequence (claim_at g dump.now) block g.block }
{
    // a loop that yields the sequence by break, as document 01 names the form
    let end = block + g.block;
    let mut i = block;
    let sequence = loop {
        if end <= i {
            break 0;
        }
        let claim = claim_at(dump, g, PageNumber(i));
        i += 1;
        match claim {
            Claim::Header {
                sequence,
                object: _,
            } => break sequence,
            Claim::Data(d) => break d.sequence,
            _ => continue,
        }
    };
    sequence
}

// How many pages a dump of this length has in whole blocks; 0, as many as can score, where it does not divide.
#[tactic(auto, unfolding(crate::specs::Leaving::pages_under))]
fn pages_under(g: Geometry, len: usize) -> u32
    requires layout_value { roomy g.layout ≡ true }
    requires block_value { block_fits g.block ≡ true }
    requires len_value { length_fits len ≡ true }
    ensures { result ≡ pages_under g len }
{
    if !g.divides(len) {
        return 0;
    }
    (len / g.layout.page_len()) as u32
}

// What a block adds to its candidate.
fn gain_in(dump: &[u8], g: Geometry, block: u32) -> Gain
    requires block_value { block % g.block ≡ 0 }
    requires block_bound { block + g.block < 2 ^ 32 }
    ensures { Gained (claim_at g dump.now) g.block block result }
{
    let sequence = first_sequence(dump, g, block);
    let mut score: u32 = 0;
    let mut marked: u32 = 0;
    for i in block..block + g.block {
        if is_marked(claim_at(dump, g, PageNumber(i))) {
            marked += 1;
        }
        if bears(dump, g, PageNumber(i), sequence) {
            score += 1;
        }
    }
    Gain { score, marked }
}

// Whether a candidate with so many pages left cannot reach the score that it needs any more, or cannot fit any more.
#[tactic(auto, unfolding(crate::specs::Leaving::is_lost))]
fn is_lost(score: u32, marked: u32, left: u32, need: u32) -> bool
    requires { 2 * score + left < 2 ^ 32 }
    ensures { result ≡ is_lost score marked left need }
{
    score + left < need || 2 * score + left < marked
}

// The score that candidate n needs to lead before candidate `found`, which has the best so far.
#[tactic(auto, unfolding(crate::specs::Leaving::need_of))]
fn need_of(n: u32, found: u32, best: u32) -> u32
    requires { best < 2 ^ 31 }
    ensures { result ≡ need_of n found best }
{
    if n < found { best } else { best + 1 }
}

// The candidate of a turn: the one that was guessed and the first of the table have changed places.
#[tactic(auto, unfolding(crate::specs::Leaving::in_turn))]
fn in_turn(guess: u32, turn: u32) -> u32
    ensures { result ≡ in_turn guess turn }
{
    if turn == 0 {
        return guess;
    }
    if turn == guess { 0 } else { turn }
}

// How many pages score in a few blocks of candidate n, spread over the dump.
fn glance(dump: &[u8], k: u32, n: u32) -> u32
    requires n_lt_layouts { n < layouts }
    requires k_value { block_fits k ≡ true }
    requires dump_value { length_fits (length dump.now) ≡ true }
{
    let g = Geometry {
        layout: Layout::row(n),
        block: k,
    };
    let pages = pages_under(g, dump.len());
    if pages == 0 {
        return 0;
    }
    let stride = pages / GLANCES / k * k;
    let mut score: u32 = 0;
    for i in 0..GLANCES {
        score += gain_in(dump, g, stride * i).score;
    }
    score
}

// The candidate that looks best at a glance. Any would do: the better the guess, the sooner the others are lost.
fn guess(dump: &[u8], k: u32) -> u32
    requires k_value { block_fits k ≡ true }
    requires dump_value { length_fits (length dump.now) ≡ true }
    ensures { result < layouts }
{
    let mut most: u32 = 0;
    let mut first: u32 = 0;
    for n in 0..Layout::COUNT {
        let score = glance(dump, k, n);
        if score <= most {
            continue;
        }
        most = score;
        first = n;
    }
    first
}

// The candidate with the highest score, the first in the table of those that have it.
fn best_of(dump: &[u8], k: u32) -> Result<Layout, Refusal>
    requires k_value { block_fits k ≡ true }
    requires dump_value { length_fits (length dump.now) ≡ true }
    ensures { result ≡ winner_of (candidate_score dump.now k) }
{
    let first = guess(dump, k);
    let mut best: u32 = 0;
    let mut found: u32 = 0;
    'candidates: for turn in 0..Layout::COUNT {
        let n = in_turn(first, turn);
        let g = Geometry {
            layout: Layout::row(n),
            block: k,
        };
        let pages = pages_under(g, dump.len());
        let need = need_of(n, found, best);
        let mut score: u32 = 0;
        let mut marked: u32 = 0;
        let mut next: u32 = 0;
        // with no page left, a candidate that is not lost fits and has the score that it needs
        'blocks: loop {
            if is_lost(score, marked, pages - next, need) {
                continue 'candidates;
            }
            if next == pages {
                break 'blocks;
            }
            let gain = gain_in(dump, g, next);
            next += k;
            score += gain.score;
            marked += gain.marked;
        }
        best = score;
        found = n;
    }
    if best == 0 {
        return Err(Refusal::NoLayout);
    }
    Ok(Layout::row(found))
}

// The layout of a dump in blocks of k pages, or why there is none.
#[tactic(auto, unfolding(crate::specs::Find::find_of))]
pub fn find(dump: &[u8], k: u32) -> Result<Layout, Refusal>
    ensures { result ≡ find_of dump.now k }
{
    if !Geometry::block_fits(k) {
        return Err(Refusal::BadLayout);
    }
    if !Geometry::length_fits(dump.len()) {
        return Err(Refusal::BadLength);
    }
    best_of(dump, k)
}

// The score of so many pages of a dump that is read so, if it is at least what is needed; 0 else, a score that leads nowhere. It is left as soon as it
// cannot be.
fn score_in(dump: &[u8], g: Geometry, pages: u32, need: u32) -> u32
    requires block_nonzero { 0 < g.block }
    requires block_bound { g.block < 2 ^ 31 }
    requires pages_bound { pages < 2 ^ 31 }
    requires block_value { pages % g.block ≡ 0 }
    ensures { result ≡ at_least need (fitting_score (claim_at g dump.now) g.block pages) }
{
    let mut score: u32 = 0;
    let mut marked: u32 = 0;
    let mut next: u32 = 0;
    loop {
        if is_lost(score, marked, pages - next, need) {
            return 0;
        }
        if next == pages {
            return score;
        }
        let gain = gain_in(dump, g, next);
        next += g.block;
        score += gain.score;
        marked += gain.marked;
    }
}

// The score of finding the layout, for a dump that is read so: how many good pages bear their block's sequence, if it fits and they are at least
// as many as needed; 0 else, and where the dump is refused, as the definition counts.
#[tactic(auto, unfolding(crate::specs::Find::score_under, crate::specs::Find::score_in))]
pub fn score(dump: &[u8], g: Geometry, need: u32) -> u32
    ensures { result ≡ at_least need (score_under dump.now g) }
{
    match g.opened(dump.len()) {
        Ok(pages) => score_in(dump, g, pages, need),
        Err(_) => 0,
    }
}
