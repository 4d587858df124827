// Runs of one object in the words of a dump's records.
ghost use Rattle.std.specs.Prelude.{◌≡◌};
ghost use Rattle.compare.specs.Lists.{run_of};

use sort::rows::key_of;

// How many words at the front are of object o. They are a caller's and need not ascend, so that there is no search by halves.
#[tactic(auto, using(crate::proofs::Tests::cases, crate::proofs::Running::run_on, crate::proofs::Running::run_off, crate::proofs::Running::run_end))]
pub(crate) fn run_of(order: &[u64], o: u32) -> usize
    ensures { result ≡ run_of o order.now }
{
    for i in 0..order.len() {
        if key_of(order[i]) != o {
            return i;
        }
    }
    order.len()
}
