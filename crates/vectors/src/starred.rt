// The starred cases of document 01's "Small skies to try", with SHA-256: what each block makes in slot 0, and what an interpretation of the
// empty table is answered. The starred case of a parent that is missing stands with the admissions.
use crate::campaigns::show;
use crate::show::show_answer;
use crate::site::fresh_table;
use records::BUFFER_SIZE;
use setup::SLOTS;

// A name, how many sites there are, and the campaign as text.
const CAMPAIGNS: [(&str, u8, &str); 7] = [
    // Each block refers to the one before; the first requests 7.
    (
        "n 1, a chain of four",
        1,
        "a00\x07.0 a01..10 a02..11 a03..12",
    ),
    // Block 0 requests 42; four blocks refer to it, four to all of those, four to all of these.
    (
        "n 4, 13 blocks",
        4,
        "a00*.0 a01..10 a10..10 a20..10 a30..10 a02..41234 a11..41234 a21..41234 a31..41234 a03..45678 a12..45678 a22..45678 a32..45678",
    ),
    // Blocks 1 to 3 of sites 0 to 2 send ECHO; site 3 hears of two of them, then of the third.
    (
        "n 4, ECHO from two sites, then from a third",
        4,
        "a00*.0 a01..10 a10..10 a20..10 a30..212 a31..243",
    ),
    // Blocks 4 and 5 of sites 0 and 1 send READY; site 3 hears of one, then of the other, and then its own.
    (
        "n 4, READY from one site, from two, and its own",
        4,
        "a00*.0 a01..10 a10..10 a20..10 a02..3123 a11..3123 a30..14 a31..265 a32..17",
    ),
    // Blocks 4 to 6 of sites 0 to 2 send READY; site 3 hears of two of them, then of the third.
    (
        "n 4, READY from two sites, then from a third",
        4,
        "a00*.0 a01..10 a10..10 a20..10 a02..3123 a11..3123 a21..3123 a30..245 a31..276",
    ),
    // Site 1 refers to both, site 2 to the second alone.
    (
        "n 4, a fork with 42 and 43",
        4,
        "a00*.0 a00+.0 a10..201 a20..11",
    ),
    // Site 1 requests 42; site 0 requests 42, and 43 a block later.
    (
        "n 4, requests of another site, and of the owner once more",
        4,
        "a10*.0 a00*.0 a01+.11",
    ),
];

// Interpretation of a place that is not there, with a buffer of one number too few, then with a whole one.
fn show_lengths(rt: &impl Print) {
    let mut table = fresh_table(4, [0; SLOTS]);
    let mut short = [0; BUFFER_SIZE - 1];
    let mut whole = [0; BUFFER_SIZE];
    show_answer(
        rt,
        "interpret, 20479 numbers",
        interpret::interpret(&mut table, 0, &mut short).into(),
    );
    show_answer(
        rt,
        "interpret, 20480 numbers",
        interpret::interpret(&mut table, 0, &mut whole).into(),
    );
}

pub fn show_all(rt: &impl Print) {
    for (name, sites, text) in CAMPAIGNS {
        show(rt, name, sites, text);
    }
    show_lengths(rt);
}
