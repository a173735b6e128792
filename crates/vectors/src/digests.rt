// Messages whose SHA-256 is published. "abc" and the 448-bit message: FIPS 180-2, appendix B, and NIST's "Examples with Intermediate Values". The
// empty message: NIST's CAVP vectors, SHA256ShortMsg, Len = 0. The 896-bit message is that of FIPS 180-2, appendix C.2, where the standard gives its
// SHA-512; its SHA-256 is what other implementations publish.
use crate::show::Hex;

const MESSAGES: [(&str, &str); 4] = [
    ("nothing", ""),
    ("abc", "abc"),
    (
        "448 bits",
        "abcdbcdecdefdefgefghfghighijhijkijkljklmklmnlmnomnopnopq",
    ),
    (
        "896 bits",
        "abcdefghbcdefghicdefghijdefghijkefghijklfghijklmghijklmnhijklmnoijklmnopjklmnopqklmnopqrlmnopqrsmnopqrstnopqrstu",
    ),
];

pub fn show_all(rt: &impl Print) {
    for (name, message) in MESSAGES {
        let digest = sha256::digest(message.as_bytes());
        let _ = println!(rt; "digest of {name}: {}", Hex(&digest));
    }
}
