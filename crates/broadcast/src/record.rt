// What sending a message and delivering a number change in a record.
ghost use Rattle.std.specs.Prelude.{◌≡◌};
ghost use Rattle.broadcast.specs.declared.Sent.{Sent};

use crate::{Sent, SlotRecord};

impl SlotRecord {
    // Changes what was sent so far and what was made in this block, both as `put` does.
    pub(crate) fn in_both<F: Fn(Sent) -> Sent>(self, put: F) -> SlotRecord
        requires { F.IsAlwaysCallable put }
        ensures { (sent : Sent) × F.post put self.sent sent × (made : Sent) × F.post put self.made made × (result ≡ record self { sent = sent; made = made }) }
    {
        SlotRecord {
            sent: put(self.sent),
            made: put(self.made),
            ..self
        }
    }
}
