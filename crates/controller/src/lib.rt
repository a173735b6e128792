// A controller that follows up to four campaigns: theorems only, and no code. Promises: for every list of calls of all campaigns, from an empty
// start, the theorem of two sites and the promise of arrival hold of each campaign, each campaign depends only on its own calls and on which of its
// blocks the shelf took, and no block that waited is lost; and an arrival can be taken back (specs/Promises.antt). Assumes nothing.

#![tactic(auto)]
