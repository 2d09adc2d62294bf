// Numbers as text: a request in decimal, and bytes and words in hexadecimal.
#![tactic(auto)]

pub mod hexadecimal;
pub mod request;
