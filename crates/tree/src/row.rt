// A row of the tree: the page of an object's newest header, and a key.
ghost use Rattle.std.specs.Prelude.{◌≡◌, [], ◌∷◌};
ghost use Rattle.text.specs.Put.{Put};
ghost use Rattle.tree.specs.Rows.{key_behind};

// Puts a row into words at a position, if they have it. Answers the position behind; counting stands still at the largest. The like for a byte is text's,
// and one function of both would be no shorter.
#[tactic(auto, using(crate::proofs::Tests::cases), unfolding(text::specs::Put::over, text::specs::Put::counted))]
pub(crate) fn put_row(rows: &mut [u64], at: usize, row: u64) -> usize
    ensures { Put (row ∷ []) rows.old at rows.new result }
{
    if at < rows.len() {
        rows[at] = row;
    }
    at.saturating_add(1)
}

// The key of the entries of a directory whose row stands at a position.
pub(crate) fn key_behind(at: usize) -> u32
    ensures { result ≡ key_behind at }
{
    at.saturating_add(1).min(u32::MAX as usize) as u32
}
