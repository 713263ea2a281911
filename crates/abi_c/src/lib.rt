// The symbols for C and Rust: slices as pointer and length, as include/pannuqreik.h says. Each export is one call of `abi` under
// the same clauses, since a crate is a library for crates above it or a static library, and not both.
#![tactic(auto)]

mod between;
mod keys;
mod texts;
mod workers;
