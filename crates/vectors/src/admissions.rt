// Admission with SHA-256: setups, the parent rule, and a table that fills up.
use crate::show::show_answer;
use crate::site::fresh_table;
use setup::SLOTS;

fn show_admitted(rt: &impl Print, table: &mut [u8], name: &str, block: &[u8], verdict: u8) {
    show_answer(rt, name, admission::admit(table, block, verdict).into());
}

fn show_fresh(rt: &impl Print, name: &str, sites: u8, owner: u8) {
    let fresh = table::fresh(sites, [owner; SLOTS]);
    let (refusal, sites) = (fresh.refusal, fresh.table[0]);
    let _ = println!(rt; "{name}: refusal {refusal} sites {sites}");
}

fn show_setups(rt: &impl Print) {
    show_fresh(rt, "fresh, 4 sites, owner 3", 4, 3);
    show_fresh(rt, "fresh, 4 sites, owner 4", 4, 4);
    show_fresh(rt, "fresh, 6 sites, owner 0", 6, 0);
    show_fresh(rt, "fresh, 0 sites, owner 0", 0, 0);
}

// A block of site 0 and sequence 0 that requests a number in slot 0. Blocks of different numbers are forks.
fn requesting(number: u8) -> [u8; 8] {
    [0, 0, 0, 0, 1, 0, 0, number]
}

// A block of site 0 and sequence 1 that refers to the two blocks which request these numbers.
fn referring(first: u8, second: u8) -> [u8; 69] {
    let mut b = [0; 69];
    b[2] = 1;
    b[3] = 2;
    b[5..37].copy_from_slice(&sha256::digest(&requesting(first)));
    b[37..].copy_from_slice(&sha256::digest(&requesting(second)));
    b
}

// Blocks of sequence 1: without references, with a reference that is not held, and with references to both forks of sequence 0.
fn show_parents(rt: &impl Print) {
    let mut table = fresh_table(4, [0; SLOTS]);
    let bare = [0, 0, 1, 0, 0];
    show_admitted(rt, &mut table, "sequence 1 without references", &bare, 1);
    show_admitted(rt, &mut table, "request of 42", &requesting(42), 1);
    let both = referring(42, 43);
    show_admitted(
        rt,
        &mut table,
        "sequence 1, one reference not held",
        &both,
        1,
    );
    show_admitted(rt, &mut table, "request of 43", &requesting(43), 1);
    show_admitted(rt, &mut table, "sequence 1 with both forks", &both, 1);
}

// Admits the blocks that request the numbers from 1 up to the limit, one after the other; the limit itself is left out.
pub fn admit_up_to(table: &mut [u8], limit: u8) {
    for number in 1..limit {
        let _ = admission::admit(table, &requesting(number), 1);
    }
}

// A block for the last place and blocks for a full table: those get 11 and 8, and then 9, 10 and 5, which come before 11.
fn show_full(rt: &impl Print) {
    let mut table = fresh_table(4, [0; SLOTS]);
    admit_up_to(&mut table, 64);
    for (name, block, verdict) in [
        ("64th block", requesting(64).as_slice(), 1),
        ("65th block", &requesting(65), 1),
        ("65th block that repeats the 7th", &requesting(7), 1),
        ("65th block, a reference not held", &referring(1, 65), 1),
        ("65th block, both forks", &referring(1, 2), 1),
        ("65th block, verdict 2", &requesting(65), 2),
    ] {
        show_admitted(rt, &mut table, name, block, verdict);
    }
}

pub fn show_all(rt: &impl Print) {
    show_setups(rt);
    show_parents(rt);
    show_full(rt);
}
