// The hash value, block by block: 5.3.3 and 6.2.2 of FIPS 180-4.
ghost use Rattle.std.specs.Prelude.{◌≡◌, ◌*◌, ◌≤◌, length};
ghost use Rattle.sha256.specs.Sha256.{H0, plus, compress, hash};

use crate::Block;
use crate::rounds::{State, rounds_of};
use crate::schedule::schedule_of;

// H(0), the initial hash value.
pub fn initial() -> State
    ensures { result ≡ H0 }
{
    State {
        a: 0x6a09_e667,
        b: 0xbb67_ae85,
        c: 0x3c6e_f372,
        d: 0xa54f_f53a,
        e: 0x510e_527f,
        f: 0x9b05_688c,
        g: 0x1f83_d9ab,
        h: 0x5be0_cd19,
    }
}

// The hash value that follows s by the first n blocks of m.
pub fn hash_of(s: State, m: &[u8], n: usize) -> State
    requires { 64 * n ≤ length m.now }
    ensures { result ≡ hash s m.now n }
{
    let mut v = s;
    for i in 0..n {
        let block = m[64 * i..64 * i + 64].as_array().unwrap();
        v = compress_of(v, block);
    }
    v
}

// The hash value that follows s by a block.
fn compress_of(s: State, block: &Block) -> State
    ensures { result ≡ compress s block.now 0 }
{
    let w = schedule_of(block);
    plus_of(rounds_of(s, &w), s)
}

// Step 4: the working variables s added to the hash value t.
fn plus_of(s: State, t: State) -> State
    ensures { result ≡ plus s t }
{
    State {
        a: s.a.wrapping_add(t.a),
        b: s.b.wrapping_add(t.b),
        c: s.c.wrapping_add(t.c),
        d: s.d.wrapping_add(t.d),
        e: s.e.wrapping_add(t.e),
        f: s.f.wrapping_add(t.f),
        g: s.g.wrapping_add(t.g),
        h: s.h.wrapping_add(t.h),
    }
}
