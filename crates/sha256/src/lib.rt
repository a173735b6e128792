// SHA-256, as FIPS 180-4 defines it.
//
// Promises: `digest` answers the standard's digest of every message that a slice can hold, and it ends: no index, sum or cast in it can go wrong. The
// contract cites specs/Sha256.antt, which is the standard in its own steps and names. Assumes nothing, neither of its callers nor as an axiom.

#![tactic(auto)]

mod hash;
mod padding;
mod rounds;
mod schedule;
mod words;

ghost use Rattle.std.specs.Prelude.{◌≡◌};
ghost use Rattle.sha256.specs.Sha256.{bytes, sha256};

use hash::{hash_of, initial};
use padding::{put_tail, tail_blocks};
use rounds::State;

// A block of the message: 512 bits.
type Block = [u8; 64];

// The digest of the message, which is read in place: first its whole blocks, then one or two blocks with the message's rest and the padding.
pub fn digest(message: &[u8]) -> [u8; 32]
    ensures { result ≡ sha256 message.now }
{
    let s = hash_of(initial(), message, message.len() / 64);
    let mut tail = [0u8; 128];
    put_tail(message, &mut tail);
    bytes_of(hash_of(s, &tail, tail_blocks(message.len())))
}

// The eight words of the last hash value, each as four bytes, the high byte first.
fn bytes_of(s: State) -> [u8; 32]
    ensures { result ≡ bytes s }
{
    let words = [s.a, s.b, s.c, s.d, s.e, s.f, s.g, s.h];
    let mut out = [0u8; 32];
    for (i, word) in words.iter().enumerate() {
        base::put(&mut out, 4 * i, &word.to_be_bytes());
    }
    out
}
