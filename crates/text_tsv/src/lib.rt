// Tabbed text: lines that end with LF, fields parted by one tab, decimal numbers; read and written. It knows no table.

#![tactic(auto)]

pub mod bytes; // the next byte of a kind; bytes written
pub mod decimal; // a number in digits, read and written
pub mod field; // a line, read from field to field
