// Histories of blocks: definitions and laws only, and no code. A block with all its ancestors, its meaning, and which sites forked. Promises: in any
// collection of histories in which at most f sites forked, a slot has at most one delivered number (proofs/Agreement.antt), and a delivered number
// was requested by the slot's owner in an ancestor (proofs/Validity.antt). Nothing here knows of calls. Assumes nothing.

#![tactic(auto)]
