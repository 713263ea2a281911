// What the program `replay` reads and prints: the words of a line, names, a worker's record and a slot's fields as words
// of a line, answers.
#![tactic(auto)]

pub mod answers;
pub mod fields;
pub mod line;
pub mod names;
pub mod records;
