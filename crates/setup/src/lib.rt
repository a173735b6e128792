// A campaign's setup, which is how many sites there are and who owns each slot, and the numbers that follow from it: how many sites may fork, and how
// many supporters a message needs. Promises: each function is its definition in specs/Setup.antt, for all numbers, lawful or not; what the theorems
// use of these numbers stands in proofs/Thresholds.antt. Assumes nothing.

#![tactic(auto)]

ghost use Rattle.std.specs.Prelude.{◌≡◌};
ghost use Rattle.setup.specs.Setup.{lawful_sites, owners_below, lawful, faults, echo_quorum, ready_amplification, ready_quorum};

// No setup has more sites than 16.
pub const MAX_SITES: usize = 16;

// How many slots every setup has.
pub const SLOTS: usize = 8;

pub const MAX_SLOT: u8 = (SLOTS - 1) as u8;

// Whether a campaign may have so many sites.
fn lawful_sites(sites: u8) -> bool
    ensures { result ≡ lawful_sites sites }
{
    matches!(sites, 1 | 4 | 7 | 10 | 13 | 16)
}

// Whether every owner is a site, that is, below n.
fn owners_below(owners: &[u8], sites: u8) -> bool
    ensures { result ≡ owners_below owners.now sites }
{
    owners.iter().all(|owner| *owner < sites)
}

// Whether a campaign may have this setup.
pub fn lawful(sites: u8, owners: &[u8]) -> bool
    ensures { result ≡ lawful (record { sites = sites; owners = owners.now }) }
{
    if !lawful_sites(sites) {
        return false;
    }
    if owners.len() != SLOTS {
        return false;
    }
    owners_below(owners, sites)
}

// f, how many of n sites may fork: the whole part of (n - 1) / 3, and 0 for no sites.
pub fn faults(sites: u8) -> u32
    ensures { result ≡ faults sites }
{
    u32::from(sites.saturating_sub(1) / 3)
}

// How many supporters of an ECHO make a site send READY.
pub fn echo_quorum(sites: u8) -> u32
    ensures { result ≡ echo_quorum sites }
{
    2 * faults(sites) + 1
}

// How many supporters of a READY make a site send READY too.
pub fn ready_amplification(sites: u8) -> u32
    ensures { result ≡ ready_amplification sites }
{
    faults(sites) + 1
}

// How many supporters of a READY make a site deliver its number.
pub fn ready_quorum(sites: u8) -> u32
    ensures { result ≡ ready_quorum sites }
{
    2 * faults(sites) + 1
}
