// A whole work as one call: a start, and steps until one answers something else than Going, by value or on a record's words. Of any
// words and any record.
#![tactic(auto)]

pub mod by_value;
pub mod in_words;
