// The request, the second argument.
use digits::request::request;
use std::env::Env;
use time::Megahertz;

// The request, 0 where it is missing. The text has room for the longest argument that Linux hands
// to a program.
pub fn read<R: Env>(rt: &R) -> Megahertz {
    let mut text = [0u8; 131072];
    let length = rt.arg(2, &mut text).unwrap_or(0);
    Megahertz(request(&text[..length]))
}
