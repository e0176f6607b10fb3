#![tactic(auto)]

// The three demands as theorems about the specification's definitions (proofs/Demands.antt), and
// the lemmas behind them. There is no code here, so nothing is assumed.
