// The promise of arrival: theorems only, and no code. Promises: for every lawful setup, every record buffer and every list of calls by which nothing
// is retired, where the premises of specs/Arrival.antt hold of the ledger, the requested number is delivered in the last block's chain, and the
// site's record buffer shows it once every held block is interpreted; and a site that has retired nothing and builds by the building rule alone is
// full (specs/Building.antt). Assumes nothing.

#![tactic(auto)]
