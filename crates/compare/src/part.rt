// Parts of bytes or words.
ghost use Rattle.std.specs.Prelude.{◌≡◌, take, drop};

// So many items from a place on, as many of them as there are.
#[tactic(auto, using(crate::proofs::Tests::cases))]
pub(crate) fn part<T: Copy>(items: &[T], from: usize, n: usize) -> &[T]
    ensures { result.now ≡ take n (drop from items.now) }
{
    let rest = &items[from.min(items.len())..];
    &rest[..n.min(rest.len())]
}
