// Campaigns in which sites build their own blocks, what the watch says of them, and what building refuses. campaigns.rt says how a campaign is
// written.
use crate::admissions::admit_up_to;
use crate::blocks;
use crate::campaigns::show;
use crate::show::show_answer;
use crate::site::fresh_table;
use block::{MAX_BLOCK_SIZE, MAX_REQUEST_LIST_SIZE, REQUEST_SIZE};
use setup::SLOTS;

// A name, how many sites there are, and the campaign as text.
const CAMPAIGNS: [(&str, u8, &str); 5] = [
    // A site alone builds four blocks; the first requests 7.
    (
        "n 1, a site builds a chain of four",
        1,
        "b00\x07.0 b00..0 b00..0 b00..0 p30..0 p40..0 f00..0",
    ),
    // Site 0 requests 42, and then the sites build in turn until all four have delivered it.
    (
        "n 4, the sites build in turn",
        4,
        "b00*.0 b10..0 b20..0 b30..0 b00..0 b10..0 b20..0 b30..0 b00..0 b10..0 b20..0 p:0..0 f00..0",
    ),
    // Site 0 forks, then site 1 too; only the sites that did not fork can build.
    (
        "n 4, one site forks, and another",
        4,
        "f00..0 a00*.0 a00+.0 a10..201 f00..0 b00..0 b20.50 a10..0 f00..0 b10..0 b20..0 b30..0 p20..0 p60..0",
    ),
    // The fork of site 0 has a lower sequence number than its greatest block.
    (
        "n 4, a fork below the greatest block",
        4,
        "a00*.0 a01..10 a00+.0 f00..0 b00..0 b10..0",
    ),
    // Site 0's first block refers to 16 of the 18 blocks of other sites, its second to the other two.
    (
        "n 16, more blocks than a block refers to",
        16,
        "d10..0 d20..0 d30..0 d40..0 d50..0 d60..0 d70..0 d80..0 d90..0 d:0..0 d;0..0 d<0..0 d=0..0 d>0..0 d?0..0 d11..10 d21..11 d31..12 b00..0 b00..0 b00..0 f00..0",
    ),
];

// Request lists that are refused.
const REFUSED_LISTS: [(&str, &[u8]); 7] = [
    ("build, a list of 4 bytes", &[8, 0, 0, 0]),
    (
        "build, a list that is a byte too long",
        &[1; MAX_REQUEST_LIST_SIZE + 1],
    ),
    (
        "build, a list of a request too many",
        &[0; MAX_REQUEST_LIST_SIZE + REQUEST_SIZE],
    ),
    ("build, a request of each slot", &[1; REQUEST_SIZE * SLOTS]),
    ("build, slot 8 in the second request", &[0, 0, 1, 8, 0, 1]),
    (
        "build, slot 0 in the first and second request, number 0 in the third",
        &[0, 0, 1, 0, 0, 2, 1, 0, 0],
    ),
    (
        "build, slot 0 in the first and third request",
        &[0, 0, 1, 1, 0, 1, 0, 0, 2],
    ),
];

// Shows what a site gets that asks for its next block with these requests and has room for 4 bytes.
fn show_build(rt: &impl Print, name: &str, table: &[u8], site: u8, requests: &[u8]) {
    let mut room = [0; 4];
    show_answer(
        rt,
        name,
        build::build(table, site, requests, &mut room).into(),
    );
}

// Each check of building in the order of document 01, where later checks fail too.
fn show_refusals(rt: &impl Print) {
    let table = fresh_table(4, [0; SLOTS]);
    show_build(rt, "build, no table", &[], 9, &[0]);
    show_build(rt, "build, site 4", &table, 4, &[0]);
    for (name, list) in REFUSED_LISTS {
        show_build(rt, name, &table, 3, list);
    }
    show_build(rt, "build, an output of 4 bytes", &table, 3, &[]);
}

// Site 1 builds with as many references and requests as a block can have, on a table that holds 17 blocks of site 0.
fn show_longest(rt: &impl Print) {
    let mut table = fresh_table(4, [0; SLOTS]);
    admit_up_to(&mut table, 18);
    let full = blocks::full();
    let requests = &full.bytes[blocks::REQUESTS..MAX_BLOCK_SIZE];
    let mut short = [0; MAX_BLOCK_SIZE - 1];
    let mut room = [0; MAX_BLOCK_SIZE];
    show_answer(
        rt,
        "build, room for the longest but a byte",
        build::build(&table, 1, requests, &mut short).into(),
    );
    show_answer(
        rt,
        "build, room for the longest",
        build::build(&table, 1, requests, &mut room).into(),
    );
}

pub fn show_all(rt: &impl Print) {
    for (name, sites, text) in CAMPAIGNS {
        show(rt, name, sites, text);
    }
    show_longest(rt);
    show_refusals(rt);
}
