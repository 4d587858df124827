// Where a number stands among words that ascend, by halves.
ghost use Rattle.std.specs.Prelude.{◌≤◌, length};
ghost use Rattle.sort.specs.Search.{Sorted, Parted};

// The place of the first word that is not below x, if the words ascend; of others some place.
pub fn first_from(words: &[u64], x: u64) -> usize
    ensures upper_bound { result ≤ length words.now }
    ensures parted { Sorted words.now → Parted x words.now result }
{
    words.partition_point(|&word| word < x)
}
