// A block written into a lent output.
ghost use Rattle.std.specs.Prelude.{◌≡◌};
ghost use Rattle.base.specs.Bytes.{splice};
ghost use Rattle.block.specs.Layout.{content, encode};
ghost use Rattle.block.specs.Steps.{Writable};

use crate::{HEADER_SIZE, REFERENCE_SIZE, REQUEST_SIZE};

// Writes the block of a site, a sequence number and the bytes of the two lists to the front of the output, whose other bytes stay.
pub fn write_block(site: u8, sequence: u16, references: &[u8], requests: &[u8], output: &mut [u8])
    requires { Writable references.now requests.now output.old }
    ensures { output.new ≡ splice output.old 0 (encode (content site sequence references.now requests.now)) }
{
    let [high, low] = sequence.to_be_bytes();
    let header = [
        site,
        high,
        low,
        (references.len() / REFERENCE_SIZE) as u8,
        (requests.len() / REQUEST_SIZE) as u8,
    ];
    base::put(output, 0, &header);
    base::put(output, HEADER_SIZE, references);
    base::put(output, HEADER_SIZE + references.len(), requests);
}
