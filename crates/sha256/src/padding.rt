// The padding: 5.1.1 of FIPS 180-4. Of the message only the rest is copied, the bytes after its last whole block: at most 63.
ghost use Rattle.std.specs.Prelude.{◌≡◌, ◌+◌, ◌-◌, ◌*◌, ◌/◌, ◌%◌, ◌^◌, ◌≤◌, ◌<◌, ◌∷◌, ◌++◌, length, take, drop, replicate};
ghost use Rattle.sha256.specs.Sha256.{pad};
ghost use Rattle.sha256.specs.Steps.{tail_blocks};

// How many blocks follow the message's whole blocks: as many as its rest, the byte with the one bit and the eight bytes of the length need.
pub fn tail_blocks(len: usize) -> usize
    ensures { result ≡ tail_blocks len }
{
    (len % 64 + 9 + 63) / 64
}

// Puts what the padded message has after the message's whole blocks into two blocks of zeros: it fills the first of them, or both.
pub fn put_tail(message: &[u8], tail: &mut [u8; 128])
    requires { tail.old ≡ replicate 128 0 }
    ensures { take (64 * tail_blocks (length message.now)) tail.new ≡ drop (64 * (length message.now / 64)) (pad message.now) }
{
    let len = message.len();
    put_rest(message, 64 * (len / 64), tail);
    let end = 64 * tail_blocks(len);
    base::put(tail, end - 8, &bit_count(len).to_be_bytes());
}

// Puts the message from byte `at` on, then the byte with the one bit. The bytes behind it stay zeros.
fn put_rest(message: &[u8], at: usize, tail: &mut [u8; 128])
    requires { (at ≤ length message.now) × (length message.now < at + 64) × (tail.old ≡ replicate 128 0) }
    ensures { tail.new ≡ drop at message.now ++ (0x80 ∷ replicate (127 - (length message.now - at)) 0) }
{
    let n = message.len() - at;
    base::put(tail, 0, &message[at..]);
    tail[n] = 0x80;
}

// The message's length in bits, modulo 2 ^ 64.
fn bit_count(len: usize) -> u64
    ensures { result ≡ 8 * len % 2 ^ 64 }
{
    (len as u64).wrapping_mul(8)
}
