// The references of a site's next block.
ghost use Rattle.std.specs.Prelude.{◌≡◌, false, true, ◌≤◌, ◌<◌};
ghost use Rattle.base.specs.Search.{found_below};
ghost use Rattle.base.specs.Mask.{in_mask};
ghost use Rattle.table.specs.View.{max_places};
ghost use Rattle.table.specs.Layout.{count_of, view_of};
ghost use Rattle.table.specs.Form.{in_form};
ghost use Rattle.watch.specs.Forks.{forked_in};
ghost use Rattle.build.specs.Building.{next_sequence, is_greatest, is_other, picked};
ghost use Rattle.build.specs.Steps.{referred_mask, greatest_in, others_in, digests_of, with_digests};

use crate::references::References;
use table::rows;
use watch::sites::SiteBlocks;

// A site's next block: the site's blocks so far, of which no two share a sequence number, and the sequence number behind theirs.
#[derive(Clone, Copy)]
pub struct NextBlock<'a> {
    pub own: SiteBlocks<'a>,
    pub sequence: u16,
    ghost formed: { in_form own.table.now ≡ true },
    ghost held: { count_of own.table.now ≤ max_places },
    ghost unforked: { forked_in (view_of own.table.now) (in_mask own.seen) own.site ≡ false },
    ghost numbered: { sequence ≡ next_sequence (in_mask own.seen) (view_of own.table.now) own.site },
}

impl NextBlock<'_> {
    // Whether place i holds the site's block of greatest sequence number.
    fn is_greatest(self, i: usize) -> bool
        requires { i < max_places }
        ensures { result ≡ is_greatest (in_mask self.entry.own.seen) (view_of self.entry.own.table.now) self.entry.own.site i }
    {
        self.own.at(i)
            && u32::from(rows::sequence_at(self.own.table, i)) + 1 == u32::from(self.sequence)
    }

    // The place of the site's block of greatest sequence number, if the site has a block.
    fn greatest_place(self) -> Option<usize>
        ensures { result ≡ found_below (is_greatest (in_mask self.entry.own.seen) (view_of self.entry.own.table.now) self.entry.own.site) (count_of self.entry.own.table.now) }
    {
        (0..rows::count_of(self.own.table)).find(|i| self.is_greatest(*i))
    }

    // The mask of the places that the site's blocks refer to directly.
    fn referred_mask(self) -> u64
        ensures { result ≡ referred_mask self.entry.own.table.now self.entry.own.seen self.entry.own.site }
    {
        let mut mask = 0;
        for i in 0..rows::count_of(self.own.table) {
            if self.own.at(i) {
                mask |= rows::references_at(self.own.table, i);
            }
        }
        mask
    }

    // Whether place i is looked at and holds a block of another site, and is not in the mask of the places referred to.
    fn is_other(self, referred: u64, i: usize) -> bool
        requires { (i < max_places) × (referred ≡ referred_mask self.own.table.now self.own.seen self.own.site) }
        ensures { result ≡ is_other (in_mask self.entry.own.seen) (view_of self.entry.own.table.now) self.entry.own.site i }
    {
        base::in_mask(self.own.seen, i)
            && rows::site_at(self.own.table, i) != self.own.site
            && !base::in_mask(referred, i)
    }

    // Puts the digests of the other sites' blocks that no block of this site refers to behind the references, in place order and as long as there is
    // room.
    fn put_others(self, references: &mut References)
        ensures { references.new ≡ with_digests self.entry.own.table.now (others_in self.entry.own.table.now self.entry.own.seen self.entry.own.site) references.old }
    {
        let referred = self.referred_mask();
        for i in 0..rows::count_of(self.own.table) {
            if self.is_other(referred, i) {
                references.push(rows::digest_at(self.own.table, i));
            }
        }
    }

    // Puts the digest of the site's block of greatest sequence number behind the references, if the site has a block and if there is room.
    fn put_greatest(self, references: &mut References)
        ensures { references.new ≡ with_digests self.entry.own.table.now (greatest_in self.entry.own.table.now self.entry.own.seen self.entry.own.site) references.old }
    {
        if let Some(place) = self.greatest_place() {
            references.push(rows::digest_at(self.own.table, place));
        }
    }

    // The references of the block.
    pub fn references(self) -> References
        ensures { result ≡ digests_of self.entry.own.table.now (picked (in_mask self.entry.own.seen) (view_of self.entry.own.table.now) self.entry.own.site) }
    {
        let mut references = References::new();
        self.put_greatest(&mut references);
        self.put_others(&mut references);
        references
    }
}
