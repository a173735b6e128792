// The watch for forks: which sites have two blocks of one sequence number, and which places are the ancestors of a place. Promises: `forks` and
// `ancestors` answer what specs/Forks.antt and specs/Ancestors.antt say, for any table and place; the set bits of the masks are exactly the forked
// sites and the ancestors (specs/Promises.antt). Assumes nothing; the table is read only.

#![tactic(auto)]

mod ancestry;
pub mod sites;

ghost use Rattle.std.specs.Prelude.{◌≡◌};
ghost use Rattle.watch.specs.Forks.{forked_sites, forks};
ghost use Rattle.watch.specs.Ancestors.{ancestor_places, ancestors};

use answer::Refusal;
use table::rows;

// The mask of the sites that forked, how many they are, and whether that is at most f.
#[derive(Clone, Copy, Debug, PartialEq, Eq)]
pub struct ForkReport {
    pub sites: u16,
    pub count: u32,
    pub at_most_f: bool,
}

// The mask of the places of a block's ancestors, and how many they are.
#[derive(Clone, Copy, Debug, PartialEq, Eq)]
pub struct AncestorReport {
    pub places: u64,
    pub count: u32,
}

// What `forks` answers, as programs in C get it: a refusal's number, 0 for none. Beside a refusal mask and count are 0, and the last is false.
#[repr(C)]
#[derive(Clone, Copy, Debug, PartialEq, Eq)]
pub struct ForkedSites {
    pub refusal: u8,
    pub sites: u16,
    pub count: u32,
    pub at_most_f: bool,
}

impl From<Result<ForkReport, Refusal>> for ForkedSites {
    ghost from_gives = { λ outcome answer. answer ≡ forked_sites outcome };

    fn from(outcome: Result<ForkReport, Refusal>) -> ForkedSites {
        match outcome {
            Ok(forks) => ForkedSites {
                refusal: 0,
                sites: forks.sites,
                count: forks.count,
                at_most_f: forks.at_most_f,
            },
            Err(refusal) => ForkedSites {
                refusal: refusal.number(),
                sites: 0,
                count: 0,
                at_most_f: false,
            },
        }
    }
}

// What `ancestors` answers, as programs in C get it: a refusal's number, 0 for none. Beside a refusal mask and count are 0.
#[repr(C)]
#[derive(Clone, Copy, Debug, PartialEq, Eq)]
pub struct AncestorPlaces {
    pub refusal: u8,
    pub places: u64,
    pub count: u32,
}

impl From<Result<AncestorReport, Refusal>> for AncestorPlaces {
    ghost from_gives = { λ outcome answer. answer ≡ ancestor_places outcome };

    fn from(outcome: Result<AncestorReport, Refusal>) -> AncestorPlaces {
        match outcome {
            Ok(ancestors) => AncestorPlaces {
                refusal: 0,
                places: ancestors.places,
                count: ancestors.count,
            },
            Err(refusal) => AncestorPlaces {
                refusal: refusal.number(),
                places: 0,
                count: 0,
            },
        }
    }
}

// The sites with two held blocks of one sequence number. Refuses a table that is not in form with 2.
pub fn forks(table: &[u8]) -> Result<ForkReport, Refusal>
    ensures { forked_sites result ≡ forks table.now }
{
    let Some(table) = table::formed(table) else {
        return Err(Refusal::OutOfForm);
    };
    let sites = sites::forked_mask(table);
    let count = sites.count_ones();
    Ok(ForkReport {
        sites,
        count,
        at_most_f: count <= setup::faults(rows::sites_of(table)),
    })
}

// All ancestors of a place, itself left out. Refuses with 2 or 13, in that order.
pub fn ancestors(table: &[u8], place: usize) -> Result<AncestorReport, Refusal>
    ensures { ancestor_places result ≡ ancestors table.now place }
{
    let Some(table) = table::formed(table) else {
        return Err(Refusal::OutOfForm);
    };
    if rows::count_of(table) <= place {
        return Err(Refusal::UnknownPlace);
    }
    let places = ancestry::ancestor_mask(table, place);
    Ok(AncestorReport {
        places,
        count: places.count_ones(),
    })
}
