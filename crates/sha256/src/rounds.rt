// The 64 rounds on the working variables: 6.2.2 of FIPS 180-4, steps 2 and 3.
ghost use Rattle.std.specs.Prelude.{◌≡◌};
ghost use Rattle.sha256.specs.Sha256.{T1, T2, round, rounds};

use crate::words::{big_sigma0, big_sigma1, ch, maj};

// The eight working variables, and the hash value between two blocks.
#[derive(Clone, Copy, Debug, PartialEq, Eq)]
pub struct State {
    pub a: u32,
    pub b: u32,
    pub c: u32,
    pub d: u32,
    pub e: u32,
    pub f: u32,
    pub g: u32,
    pub h: u32,
}

// The constants of 4.2.2, one for each round.
const K: [u32; 64] = [
    0x428a_2f98,
    0x7137_4491,
    0xb5c0_fbcf,
    0xe9b5_dba5,
    0x3956_c25b,
    0x59f1_11f1,
    0x923f_82a4,
    0xab1c_5ed5,
    0xd807_aa98,
    0x1283_5b01,
    0x2431_85be,
    0x550c_7dc3,
    0x72be_5d74,
    0x80de_b1fe,
    0x9bdc_06a7,
    0xc19b_f174,
    0xe49b_69c1,
    0xefbe_4786,
    0x0fc1_9dc6,
    0x240c_a1cc,
    0x2de9_2c6f,
    0x4a74_84aa,
    0x5cb0_a9dc,
    0x76f9_88da,
    0x983e_5152,
    0xa831_c66d,
    0xb003_27c8,
    0xbf59_7fc7,
    0xc6e0_0bf3,
    0xd5a7_9147,
    0x06ca_6351,
    0x1429_2967,
    0x27b7_0a85,
    0x2e1b_2138,
    0x4d2c_6dfc,
    0x5338_0d13,
    0x650a_7354,
    0x766a_0abb,
    0x81c2_c92e,
    0x9272_2c85,
    0xa2bf_e8a1,
    0xa81a_664b,
    0xc24b_8b70,
    0xc76c_51a3,
    0xd192_e819,
    0xd699_0624,
    0xf40e_3585,
    0x106a_a070,
    0x19a4_c116,
    0x1e37_6c08,
    0x2748_774c,
    0x34b0_bcb5,
    0x391c_0cb3,
    0x4ed8_aa4a,
    0x5b9c_ca4f,
    0x682e_6ff3,
    0x748f_82ee,
    0x78a5_636f,
    0x84c8_7814,
    0x8cc7_0208,
    0x90be_fffa,
    0xa450_6ceb,
    0xbef9_a3f7,
    0xc671_78f2,
];

// The working variables after 64 rounds on the hash value s. The constants are bound to `k` before the loop, since a constant that is indexed in a
// loop is built anew each turn. Four rounds a turn are faster than one: the working variables move less.
pub fn rounds_of(s: State, w: &[u32; 64]) -> State
    ensures { result ≡ rounds s w.now 64 }
{
    let k = K;
    let mut v = s;
    for turn in 0..16 {
        let t = 4 * turn;
        v = round_of(v, k[t], w[t]);
        v = round_of(v, k[t + 1], w[t + 1]);
        v = round_of(v, k[t + 2], w[t + 2]);
        v = round_of(v, k[t + 3], w[t + 3]);
    }
    v
}

fn round_of(s: State, k: u32, w: u32) -> State
    ensures { result ≡ round s k w }
{
    let t1 = t1_of(s, k, w);
    State {
        h: s.g,
        g: s.f,
        f: s.e,
        e: s.d.wrapping_add(t1),
        d: s.c,
        c: s.b,
        b: s.a,
        a: t1.wrapping_add(t2_of(s)),
    }
}

fn t1_of(s: State, k: u32, w: u32) -> u32
    ensures { result ≡ T1 s k w }
{
    s.h.wrapping_add(big_sigma1(s.e))
        .wrapping_add(ch(s.e, s.f, s.g))
        .wrapping_add(k)
        .wrapping_add(w)
}

fn t2_of(s: State) -> u32
    ensures { result ≡ T2 s }
{
    big_sigma0(s.a).wrapping_add(maj(s.a, s.b, s.c))
}
