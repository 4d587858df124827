// Lent slices that have room for more than is kept in them.
ghost use Rattle.std.specs.Prelude.{◌≡◌, ◌++◌, length, take, drop};
ghost use Rattle.sort.specs.Room.{cleared_in};

// Clears the words from one to before another; where there are not so many, or the first is behind the other, none.
pub fn clear(words: &mut [u64], from: usize, to: usize)
    ensures { words.new ≡ cleared_in from to words.old }
{
    if from <= to && to <= words.len() {
        words[from..to].fill(0);
    }
}

// Copies as much of one slice as there is room for to the begin of another. A loop and no copy_from_slice, which would call memcpy or memmove: of other
// libraries ours calls memset alone (include/lohenarr.h).
pub fn copy<T: Copy>(to: &mut [T], from: &[T])
    ensures front { to.new ≡ take (length to.old) from.now ++ drop (length from.now) to.old }
    ensures whole { length from.now ≡ length to.old → to.new ≡ from.now }
{
    let n = to.len().min(from.len());
    for i in 0..n {
        to[i] = from[i];
    }
}
