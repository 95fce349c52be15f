//! The numbers of a table's seats, and sums over what is seen of their views. The crate has no code:
//! the core crates stand on its definitions and lemmas.
#![tactic(auto)]
