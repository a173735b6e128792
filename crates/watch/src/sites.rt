// Which sites have two held blocks of one sequence number. The mask `seen` says which places are looked at.
ghost use Rattle.std.specs.Prelude.{◌≡◌, ◌≤◌, ◌<◌};
ghost use Rattle.base.specs.Search.{any_below};
ghost use Rattle.base.specs.Mask.{in_mask};
ghost use Rattle.table.specs.View.{max_places};
ghost use Rattle.table.specs.Layout.{setup_of, count_of, site_at, view_of};
ghost use Rattle.watch.specs.Forks.{everywhere, of_site, of_sequence, sequence_repeated_at, forked_in, forked_mask};
ghost use Rattle.watch.specs.Steps.{Watchable, sequence_print, sequence_prints_met};

use setup::MAX_SITES;
use table::{TableBytes, rows};

// The mask by which every place is looked at.
pub const EVERYWHERE: u64 = 0xffff_ffff_ffff_ffff;

// The blocks of a site at the places that the mask `seen` has.
#[derive(Clone, Copy)]
pub struct SiteBlocks<'a> {
    pub table: &'a TableBytes,
    pub seen: u64,
    pub site: u8,
}

impl SiteBlocks<'_> {
    // Whether place i is looked at and holds a block of the site.
    pub fn at(self, i: usize) -> bool
        requires { i < max_places }
        ensures { result ≡ of_site (view_of self.entry.table.now) (in_mask self.entry.seen) self.entry.site i }
    {
        base::in_mask(self.seen, i) && rows::site_at(self.table, i) == self.site
    }

    // Whether place i is looked at and holds a block of the site with this sequence number.
    fn of_sequence(self, sequence: u16, i: usize) -> bool
        requires { i < max_places }
        ensures { result ≡ of_sequence (view_of self.entry.table.now) (in_mask self.entry.seen) self.entry.site sequence i }
    {
        self.at(i) && rows::sequence_at(self.table, i) == sequence
    }

    // Whether some place below k is looked at and holds a block of the site with this sequence number.
    fn any_of_sequence(self, sequence: u16, k: usize) -> bool
        requires { k ≤ max_places }
        ensures { result ≡ any_below (of_sequence (view_of self.entry.table.now) (in_mask self.entry.seen) self.entry.site sequence) k }
    {
        (0..k).any(|i| self.of_sequence(sequence, i))
    }

    // Whether place i is looked at and holds a block of the site, and so does a lower place, with the same sequence number.
    fn repeats(self, i: usize) -> bool
        requires { i < max_places }
        ensures { result ≡ sequence_repeated_at (view_of self.entry.table.now) (in_mask self.entry.seen) self.entry.site i }
    {
        self.at(i) && self.any_of_sequence(rows::sequence_at(self.table, i), i)
    }

    // Whether two blocks of the site, at places that are looked at, share a sequence number.
    pub fn forked(self) -> bool
        requires { count_of self.table.now ≤ max_places }
        ensures { result ≡ forked_in (view_of self.entry.table.now) (in_mask self.entry.seen) self.entry.site }
    {
        (0..rows::count_of(self.table)).any(|i| self.repeats(i))
    }
}

// The print of the block at place i, made from its sequence number: blocks with one sequence number have their print in common.
fn sequence_print(table: &TableBytes, i: usize) -> usize
    requires { i < max_places }
    ensures { result ≡ sequence_print table.now i }
{
    usize::from(rows::sequence_at(table, i)) % base::PRINTS
}

// Whether a lower place holds a block of the site and sequence number of place i, where `prints` is the mask of the prints that the blocks of its
// site at lower places have. Where the print of place i is not among these, no lower place is looked at.
fn is_fork(table: &TableBytes, i: usize, prints: u64) -> bool
    requires { (i < max_places) × (prints ≡ sequence_prints_met table.now i) }
    ensures { result ≡ sequence_repeated_at (view_of table.now) everywhere (site_at table.now i) i }
{
    let of_its_site = SiteBlocks {
        table,
        seen: EVERYWHERE,
        site: rows::site_at(table, i),
    };
    base::in_mask(prints, sequence_print(table, i)) && of_its_site.repeats(i)
}

// The mask of the sites that forked, in one pass: for each site a mask keeps the prints met, so that few blocks are compared with others.
pub fn forked_mask(table: &TableBytes) -> u16
    requires { Watchable table.now }
    ensures { result ≡ forked_mask (setup_of table.now) (view_of table.now) }
{
    let k = rows::count_of(table);
    let mut mask = 0u16;
    let mut of_site = [0u64; MAX_SITES];
    for i in 0..k {
        let site = usize::from(rows::site_at(table, i));
        let prints = of_site[site];
        if is_fork(table, i, prints) {
            mask |= 1u16 << site;
        }
        of_site[site] = prints | (1u64 << sequence_print(table, i));
    }
    mask
}
