// Which sites a number was heard from, and how many they are.
ghost use Rattle.std.specs.Prelude.{◌≡◌, ◌≤◌};
ghost use Rattle.setup.specs.Setup.{max_sites};
ghost use Rattle.broadcast.specs.Process.{supporters, support};

use setup::MAX_SITES;

// The mask of the sites below n whose heard entry is the number.
fn supporters(heard: &[u16; MAX_SITES], n: u8, number: u16) -> u16
    requires { n ≤ max_sites }
    ensures { result ≡ supporters n heard.now number }
{
    let mut mask = 0;
    for p in 0..n {
        if heard[usize::from(p)] == number {
            mask |= 1u16 << p;
        }
    }
    mask
}

// How many sites below n have the number as their heard entry.
#[tactic(auto, unfolding(crate::specs::Process::support))]
pub fn support(heard: &[u16; MAX_SITES], n: u8, number: u16) -> u32
    requires { n ≤ max_sites }
    ensures { result ≡ support n heard.now number }
{
    supporters(heard, n, number).count_ones()
}
