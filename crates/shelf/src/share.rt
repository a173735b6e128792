// How the campaigns share the places: each may always hold 2, and none holds more than 10.
ghost use Rattle.std.specs.Prelude.{◌≡◌, ◌≤◌};
ghost use Rattle.shelf.specs.Layout.{max_waiting, waiting_in};
ghost use Rattle.shelf.specs.Rules.{reserved, holds, lack, others_lack, has_place, shared};

use crate::entries::Entries;
use crate::{CAMPAIGNS, MAX_SHARE, MAX_WAITING, RESERVED};

impl Entries<'_> {
    // How many places a campaign holds.
    fn places_held(&self, campaign: u8) -> usize
        ensures { (result ≡ holds campaign (waiting_in self.now.shelf.now)) × (result ≤ max_waiting) }
    {
        (0..self.count())
            .filter(|i| self.campaign_at(*i) == campaign)
            .count()
    }

    // How many places a campaign lacks of its 2.
    fn lacked(&self, campaign: u8) -> usize
        ensures { (result ≡ lack campaign (waiting_in self.now.shelf.now)) × (result ≤ reserved) }
    {
        RESERVED.saturating_sub(self.places_held(campaign))
    }

    // How many places all other campaigns together lack of their 2.
    #[tactic(auto, using(base::proofs::Sum::sum_more), unfolding(base::specs::Count::sum_below))]
    fn others_lack(&self, campaign: u8) -> usize
        ensures { result ≡ others_lack campaign (waiting_in self.now.shelf.now) }
    {
        let mut sum = 0;
        for c in 0..CAMPAIGNS as u8 {
            if c != campaign {
                sum += self.lacked(c);
            }
        }
        sum
    }

    // Whether there is a place for a further block of the campaign.
    #[tactic(auto, using(crate::proofs::Turns::length_waiting), unfolding(crate::specs::Rules::has_place))]
    pub fn has_place(&self, campaign: u8) -> bool
        ensures { result ≡ has_place campaign (waiting_in self.now.shelf.now) }
    {
        if MAX_SHARE <= self.places_held(campaign) {
            return false;
        }
        self.others_lack(campaign) < MAX_WAITING - self.count()
    }

    // Whether no campaign holds more than 10 places, and the free places cover what the campaigns lack of their 2.
    #[tactic(auto, using(base::proofs::Sum::sum_more), unfolding(base::specs::Count::sum_below))]
    pub fn shared(&self) -> bool
        ensures { result ≡ shared (waiting_in self.now.shelf.now) }
    {
        let mut sum = 0;
        for c in 0..CAMPAIGNS as u8 {
            if MAX_SHARE < self.places_held(c) {
                return false;
            }
            sum += self.lacked(c);
        }
        sum <= MAX_WAITING - self.count()
    }
}
