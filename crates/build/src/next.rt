// The sequence number of a site's next block.
ghost use Rattle.std.specs.Prelude.{◌≡◌, ◌≤◌, ◌<◌};
ghost use Rattle.base.specs.Mask.{in_mask};
ghost use Rattle.table.specs.View.{max_places};
ghost use Rattle.table.specs.Layout.{count_of, view_of};
ghost use Rattle.build.specs.Building.{sequence_after, next_sequence};

use table::rows;
use watch::sites::SiteBlocks;

// One more than the sequence number of the block at place i; 0 if place i is not looked at or holds a block of another site.
fn sequence_after(own: SiteBlocks, i: usize) -> u32
    requires { i < max_places }
    ensures { result ≡ sequence_after (in_mask own.entry.seen) (view_of own.entry.table.now) own.entry.site i }
{
    if !own.at(i) {
        return 0;
    }
    u32::from(rows::sequence_at(own.table, i)) + 1
}

// One more than the greatest sequence number of the site's blocks; 0 if it has no block.
pub fn next_sequence(own: SiteBlocks) -> u32
    requires { count_of own.table.now ≤ max_places }
    ensures { result ≡ next_sequence (in_mask own.entry.seen) (view_of own.entry.table.now) own.entry.site }
{
    let mut next = 0;
    for i in 0..rows::count_of(own.table) {
        next = sequence_after(own, i).max(next);
    }
    next
}
