// Document 01's light table, as definitions and one statement of all its cases. No function has a body: the program
// `light_table` runs the cases on the compiled code.

#![tactic(auto)]
