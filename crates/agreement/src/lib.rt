// Two sites never disagree: theorems only, and no code. Promises: for every lawful setup, any two record buffers and any two lists of calls of
// admission, interpretation, retiring and taking back, each site keeps to its ledger, and while at most f sites forked a slot has one number at
// both (specs/TwoSites.antt); so two listings of one setup never show two numbers for a slot (specs/TwoListings.antt); and what the watch says of a
// table that calls reached is what the ledger says (specs/Watch.antt). Assumes nothing.

#![tactic(auto)]
