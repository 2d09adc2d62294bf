// What a call is given beside its head, as bytes. A byte past the end is 0, so every list of bytes is
// an argument of every call.
#![tactic(auto)]

pub mod calls;
pub mod numbers;

ghost use Rattle.std.specs.Prelude.{◌≤◌, ◌≡◌, drop, get_or};
ghost use Rattle.record.specs.Four.{four_in};

use std::array;

pub fn byte_at(bytes: &[u8], at: usize) -> u8
    ensures { result ≡ get_or bytes.now at 0 }
{
    bytes.get(at).copied().unwrap_or(0)
}

// The number of four bytes, high byte first.
#[tactic(auto, unfolding(record::specs::Four::four_in))]
pub fn four_at(bytes: &[u8], at: usize) -> u32
    requires { at ≤ 60 }
    ensures { result ≡ four_in (drop at bytes.now) }
{
    u32::from_be_bytes(array::from_fn(|i| byte_at(bytes, at + i)))
}
