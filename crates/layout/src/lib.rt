// Definitions and laws alone: the fields of a packed word, by a list of their widths. No function has a body.

#![tactic(auto)]
