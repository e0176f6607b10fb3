#![tactic(auto)]

// Laws of the words that the specification is written with: what a test means, what a test over lists
// of clauses comes to, and little-endian numbers for any width. There is no code here.
