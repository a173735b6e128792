// The numbers in a mask, one after the other. A loop over them takes a turn for each, and for no other number.
ghost use Rattle.std.specs.Iterator.{at_most};
ghost use Rattle.base.specs.Steps.{TakesHighest};

use crate::highest;

// What is left to go over. The highest number comes first.
#[derive(Drop)]
pub struct Members(pub u64);

impl Iterator for Members {
    type Item = usize;

    ghost next_gives = { λ s r t. TakesHighest s.0 r t.0 };

    ghost remaining = { λ s. at_most s.0 };

    fn next(&mut self) -> Option<usize> {
        if self.0 == 0 {
            return None;
        }
        let number = highest(self.0);
        self.0 -= 1u64 << number;
        Some(number)
    }
}
