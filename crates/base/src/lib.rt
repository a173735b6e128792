// What every layer shares: tests over numbers below a bound, masks, byte strings and numbers of two bytes, with their laws
// (proofs/), and the few functions on bytes that go with them. Promises: each function's contract. Assumes nothing.

#![tactic(auto)]

pub mod masks;

ghost use Rattle.std.specs.Prelude.{◌≡◌, suc, ◌+◌, ◌^◌, ◌≤◌, ◌<◌, length, replicate};
ghost use Rattle.base.specs.LowFirst.{word_size, low_first};
ghost use Rattle.base.specs.Mask.{in_mask};
ghost use Rattle.base.specs.Bytes.{same_bytes, all_zero, splice};

// How many prints a mask of 64 bits has room for. A print is a number below 64 that is made from a key (specs/Steps.antt).
pub const PRINTS: usize = 64;

// Whether number p is in the mask, that is, whether bit p is 1.
pub fn in_mask(mask: u64, p: usize) -> bool
    requires { p < 64 }
    ensures { result ≡ in_mask mask p }
{
    (mask >> p) % 2 == 1
}

// The highest number in a mask that is not empty.
pub fn highest(mask: u64) -> usize
    requires { 0 < mask }
    ensures { (result < 64) × (2 ^ result ≤ mask) × (mask < 2 ^ suc result) }
{
    (63 - u64::leading_zeros(mask)) as usize
}

// How many bytes of two slices are compared one by one before all are.
const FIRST_BYTES: usize = 4;

// Whether the two slices hold the same bytes. Slices that differ mostly do so in the first bytes, which are compared one by one; the loop over all
// bytes has no exit, so that the compiler takes many bytes a turn, and it is no call of the library, so that it stays inlined where it is used.
pub fn same(a: &[u8], b: &[u8]) -> bool
    ensures { result ≡ same_bytes a.now b.now }
{
    if a.len() != b.len() {
        return false;
    }
    for k in 0..a.len().min(FIRST_BYTES) {
        if a[k] != b[k] {
            return false;
        }
    }
    let mut are_same = true;
    for i in 0..a.len() {
        if a[i] != b[i] {
            are_same = false;
        }
    }
    are_same
}

// Whether every byte is 0. It looks at all bytes and has no exit, so that the compiler takes many bytes a turn.
pub fn all_zero(bytes: &[u8]) -> bool
    ensures { result ≡ all_zero bytes.now }
{
    bytes.iter().fold(0, |bits, byte| bits | byte) == 0
}

// The number of at most eight bytes, the low byte first. Where they are eight, std's conversion is shorter.
pub fn low_first(bytes: &[u8]) -> u64
    requires { length bytes.now ≤ word_size }
    ensures { result ≡ low_first bytes.now }
{
    let mut word = [0u8; size_of::<u64>()];
    put(&mut word, 0, bytes);
    u64::from_le_bytes(word)
}

// Writes the part over the items from index `at` on; all other items stay.
pub fn put<T: Copy>(items: &mut [T], at: usize, part: &[T])
    requires { at + length part.now ≤ length items.old }
    ensures { items.new ≡ splice items.old at part.now }
{
    items[at..at + part.len()].copy_from_slice(part);
}
