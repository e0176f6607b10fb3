#![tactic(auto)]

// The specification: document 01 as definitions that compute (specs/), in the document's order, and
// its starred cases, computed (proofs/Cases.antt). There is no code here, so nothing is assumed.
