// Joined controllers: theorems only, and no code. Promises: from two sites that calls reached, joining leaves a site that calls could have reached,
// table and records alike; so the theorem of two sites and the promise of arrival hold of it too, whatever calls follow (specs/Promises.antt).
// Assumes nothing.

#![tactic(auto)]
