// The row of a key among rows that ascend.
ghost use Rattle.sort.specs.Search.{Sorted};
ghost use Rattle.tree.specs.Search.{Finds};

use sort::rows::{key_of, pack};
use sort::search::first_from;

// The place of the row of a key, if there is one.
#[tactic(auto, using(crate::proofs::Tests::cases))]
pub(crate) fn find(rows: &[u64], key: u32) -> Option<usize>
    requires { Sorted rows.now }
    ensures { Finds key rows.now result }
{
    let i = first_from(rows, pack(key, 0));
    if i < rows.len() && key_of(rows[i]) == key {
        return Some(i);
    }
    None
}
