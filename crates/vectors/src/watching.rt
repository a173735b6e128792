// What the watch says of a table: the sites that forked, and the ancestors of a place.
use crate::show::MaskMembers;
use watch::{AncestorPlaces, ForkedSites};

pub fn show_forks(rt: &impl Print, table: &[u8]) {
    let forks = ForkedSites::from(watch::forks(table));
    let _ = println!(rt;
        "forks: refusal {} sites{} count {} at most f {}",
        forks.refusal,
        MaskMembers(u64::from(forks.sites)),
        forks.count,
        u8::from(forks.at_most_f)
    );
}

pub fn show_ancestors(rt: &impl Print, table: &[u8], place: usize) {
    let ancestors = AncestorPlaces::from(watch::ancestors(table, place));
    let _ = println!(rt;
        "ancestors: refusal {} places{} count {}",
        ancestors.refusal,
        MaskMembers(ancestors.places),
        ancestors.count
    );
}
