// The references of a block that is being made.
ghost use Rattle.std.specs.Prelude.{◌≡◌, []};
ghost use Rattle.build.specs.Steps.{with_reference};

use block::{DigestBytes, MAX_REFERENCES, REFERENCE_SIZE};
use std::marker::Model;

// The digests, one after the other, with room for as many as a block has. In clauses they are their bytes.
#[derive(Drop)]
pub struct References {
    bytes: [u8; REFERENCE_SIZE * MAX_REFERENCES],
    count: usize,
}

impl Model for References {
    ghost use Rattle.base.specs.Bytes.{Bytes};

    ghost Value = { Bytes };

    ghost use Rattle.std.specs.Prelude.{◌≤◌, ◌*◌, take};
    ghost use Rattle.block.specs.Limits.{reference_size, max_references};

    ghost view = { λ references. take (reference_size * references.count) references.bytes };

    ghost invariant = { λ references. references.count ≤ max_references };
}

impl References {
    // No references.
    pub fn new() -> References
        ensures { result ≡ [] }
    {
        References {
            bytes: [0; REFERENCE_SIZE * MAX_REFERENCES],
            count: 0,
        }
    }

    pub fn bytes(&self) -> &[u8]
        ensures { result.now ≡ self.now }
    {
        &self.bytes[..REFERENCE_SIZE * self.count]
    }

    // Puts a digest behind the others, if there is room for it.
    pub fn push(&mut self, digest: &DigestBytes)
        ensures { self.new ≡ with_reference self.old digest.now }
    {
        let count = self.count;
        if count < MAX_REFERENCES {
            base::put(&mut self.bytes, REFERENCE_SIZE * count, digest);
            self.count = count + 1;
        }
    }
}
