// A test program: the digests of published messages, what reading answers for blocks at every limit, what admission answers while a table fills up,
// what one message does to a record, what the blocks of document 01's campaigns make, what the watch names and what building writes in further
// campaigns, and what retiring answers and leaves, also in a campaign of 240 blocks. The file stdout has what the program must write; the values
// there are those of the standard and of documents 01 and 02. A write that fails is passed over. Promises: it is safe, and it ends. Assumes: std's
// contracts of writing.

#![tactic(auto)]

mod admissions;
mod blocks;
mod building;
mod campaigns;
mod digests;
mod messages;
mod retiring;
mod show;
mod site;
mod starred;
mod watching;

fn main(rt: HostRuntime) {
    digests::show_all(&rt);
    blocks::show_all(&rt);
    admissions::show_all(&rt);
    messages::show_all(&rt);
    starred::show_all(&rt);
    building::show_all(&rt);
    retiring::show_all(&rt);
}
