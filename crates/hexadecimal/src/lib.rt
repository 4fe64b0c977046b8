// Bytes written in hexadecimal.
#![tactic(auto)]

pub mod decode;
pub mod encode;
