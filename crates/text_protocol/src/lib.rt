// The lines of the text program (document 01, 'The tabbed text'): what a line of the input says, and how an answer is written. It
// knows no table.

#![tactic(auto)]

pub mod command; // what a line says
pub mod reply; // the header, and an answer's line
