// The message schedule: 6.2.2 of FIPS 180-4, step 1.
ghost use Rattle.std.specs.Prelude.{◌≡◌, ◌+◌, ◌%◌, ◌^◌, take};
ghost use Rattle.sha256.specs.Sha256.{σ0, σ1, words, schedule};

use crate::Block;
use crate::words::{small_sigma0, small_sigma1, word_at};

// The schedule of a block.
pub fn schedule_of(block: &Block) -> [u32; 64]
    ensures { result ≡ schedule (words block.now 0 16) 48 }
{
    extend(load(block))
}

// The block's sixteen words, with room for the other 48 words of the schedule behind them.
fn load(block: &Block) -> [u32; 64]
    ensures { take 16 result ≡ words block.now 0 16 }
{
    let mut w = [0u32; 64];
    for t in 0..16 {
        w[t] = word_at(block, 4 * t);
    }
    w
}

// The whole schedule from its first sixteen words. The last two words stay in `a` and `b`, so that no word waits for the store of the one before.
fn extend(block: [u32; 64]) -> [u32; 64]
    ensures { result ≡ schedule (take 16 block) 48 }
{
    let mut w = block;
    let mut a = w[14];
    let mut b = w[15];
    for t in 16..64 {
        let c = next_of(a, w[t - 7], w[t - 15], w[t - 16]);
        w[t] = c;
        a = b;
        b = c;
    }
    w
}

// A word of the schedule, from the words that stand 2, 7, 15 and 16 before it.
fn next_of(w2: u32, w7: u32, w15: u32, w16: u32) -> u32
    ensures { result ≡ (σ1 w2 + w7 + σ0 w15 + w16) % 2 ^ 32 }
{
    small_sigma1(w2)
        .wrapping_add(w7)
        .wrapping_add(small_sigma0(w15))
        .wrapping_add(w16)
}
