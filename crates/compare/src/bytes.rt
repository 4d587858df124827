// Bytes compared, with zeros behind the end of each. Bytes are counted block by block, with no way out inside of a block: so a processor does many of
// them at a time. The library's `==` of slices stops at the first byte that differs, and knows no zeros behind an end.
ghost use Rattle.std.specs.Prelude.{◌≡◌, max, ◌+◌, ◌≤◌, length};
ghost use Rattle.compare.specs.Views.{byte_of};
ghost use Rattle.compare.specs.Differences.{differ_in};
ghost use Rattle.compare.specs.Parts.{block, differing, zeros};

// The bytes of a block: no more than fit the count.
const BLOCK: usize = 128;

// How many of so many bytes from a place on differ.
#[tactic(auto, using(crate::proofs::Tests::cases, crate::proofs::Differing::differing_none, crate::proofs::Differing::counted, crate::proofs::Differing::counted_le))]
fn differing_in(a: &[u8], b: &[u8], from: usize, n: usize) -> u8
    requires n_le_block { n ≤ block }
    requires n_in_bounds { from + n ≤ length a.now }
    requires n_in_bounds_2 { from + n ≤ length b.now }
    ensures { result ≡ differing (byte_of a.now) (byte_of b.now) from n }
{
    let mut count: u8 = 0;
    for i in 0..n {
        count += u8::from(a[from + i] != b[from + i]);
    }
    count
}

// How many of so many bytes from a place on are not 0.
#[tactic(auto, using(crate::proofs::Tests::cases, crate::proofs::Differing::differing_none, crate::proofs::Differing::counted, crate::proofs::Differing::counted_le))]
fn set_in(a: &[u8], from: usize, n: usize) -> u8
    requires n_le_block { n ≤ block }
    requires n_in_bounds { from + n ≤ length a.now }
    ensures { result ≡ differing (byte_of a.now) zeros from n }
{
    let mut count: u8 = 0;
    for i in 0..n {
        count += u8::from(a[from + i] != 0);
    }
    count
}

// Whether some byte is not 0.
#[tactic(auto, using(crate::proofs::Tests::cases, crate::proofs::Differing::differing_none, crate::proofs::Differing::differing_on, crate::proofs::Differing::differ_last))]
fn any_set(a: &[u8]) -> bool
    ensures { result ≡ differ_in (byte_of a.now) zeros 0 (length a.now) }
{
    let mut i: usize = 0;
    while BLOCK <= a.len() - i {
        if 0 < set_in(a, i, BLOCK) {
            return true;
        }
        i += BLOCK;
    }
    0 < set_in(a, i, a.len() - i)
}

// Whether two parts differ, of which the first is not the shorter.
#[tactic(auto, using(crate::proofs::Tests::cases, crate::proofs::Differing::differing_none, crate::proofs::Differing::differing_on))]
fn differ_from(a: &[u8], b: &[u8]) -> bool
    requires { length b.now ≤ length a.now }
    ensures { result ≡ differ_in (byte_of a.now) (byte_of b.now) 0 (length a.now) }
{
    let both = b.len();
    let mut i: usize = 0;
    while BLOCK <= both - i {
        if 0 < differing_in(a, b, i, BLOCK) {
            return true;
        }
        i += BLOCK;
    }
    0 < differing_in(a, b, i, both - i) || any_set(&a[both..])
}

// Whether two parts differ in some byte, with zeros behind the end of each.
#[tactic(auto, using(crate::proofs::Tests::cases, crate::proofs::Differing::differ_swap))]
pub(crate) fn differ(a: &[u8], b: &[u8]) -> bool
    ensures { result ≡ differ_in (byte_of a.now) (byte_of b.now) 0 (max (length a.now) (length b.now)) }
{
    if a.len() < b.len() {
        differ_from(b, a)
    } else {
        differ_from(a, b)
    }
}
