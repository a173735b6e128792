// Cases of the rules, row by row, and no code. Of document 01: calls of admission and interpretation on blocks that are written down field by field,
// with the answer of each call and what each block makes; the sentences of one slot's process, one by one, and the numbers of records; tables in form
// and out of form; what the watch and building answer; two runs that meet the premises of the theorem of two sites; five runs of the promise of
// arrival, three that meet its premises and two that miss one; and a site that builds by the building rule. Of request One: a block's limits, and
// reading at them. Of request Three: the shelf's rule, its form, and arrivals with the blocks that wait, are let in or are dropped. Of request Eight:
// two tables and their records joined. Of request Eleven: place 0 retired, and a campaign that goes on by retiring. Of request Twelve: the last place
// taken back, and which blocks then count. And bytes that are written out: of a table, of lists of calls, and of a listing's input and text.
// Promises: each row of the records in specs/ holds of the right-hand sides of the contracts of the calls, or of the definitions that these are made
// of; the digest is a toy digest (specs/Toy.antt). Assumes nothing.

#![tactic(auto)]
