// The numbers that the bytes of a recorded line are: answers and clocks.
ghost use Rattle.std.specs.Prelude.{◌≤◌, ◌*◌, ◌≡◌, length};
ghost use Rattle.recorded_line.specs.numbers.{answers_in};

use std::array;

// The numbers of two bytes each, which go to the start of `words`.
#[tactic(auto, using(crate::proofs::numbers::Joining::joined_more, crate::proofs::numbers::Joining::joined_all))]
pub fn join<'a>(bytes: &[u8], words: &'a mut [u16]) -> &'a [u16]
    requires { length bytes.now ≤ 2 * length words.old }
    ensures { result.now ≡ answers_in bytes.now }
{
    for (i, pair) in bytes.chunks_exact(2).enumerate() {
        words[i] = record::two_bytes(pair[0], pair[1]);
    }
    &words[..bytes.len() / 2]
}

// Clocks from four bytes each, 0 past the last.
pub fn clocks_in(bytes: &[u8]) -> [u32; 15] {
    array::from_fn(|i| crate::four_at(bytes, 4 * i))
}
