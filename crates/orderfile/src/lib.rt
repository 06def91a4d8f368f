// Reads order files: the head, the bodies, and the message in each body, with what it asks of the book.
#![tactic(auto)]

pub mod asking;
pub mod faults;
pub mod file;
pub mod input;
pub mod message;
