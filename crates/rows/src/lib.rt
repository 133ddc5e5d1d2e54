// Rows of words: what the operations on a page do word after word, over the number of its words.
#![tactic(auto)]

pub mod filling;
pub mod first_round;
pub mod second_round;
pub mod shape;
pub mod words;

// The states of a page, its byte 0; 0 is blank.
pub const STATE_FIRST: u8 = 1;

pub const STATE_FILLED: u8 = 3;

pub const STATE_SECOND: u8 = 7;

pub const STATE_INSPECT: u8 = 9;
