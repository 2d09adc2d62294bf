// The 64-bit words that C gets.
ghost use Rattle.std.specs.Prelude.{◌≡◌};
ghost use Rattle.refusal.specs.Refusal.{number_of};
ghost use Rattle.call.specs.Call.{refusal_of, value_of, entries_of, taken_of};
ghost use Rattle.call.specs.word.{packed};

use crate::{Answer, answer};
use refusal::Refusal;

fn pack(refusal: u8, value: u32, entries: usize, taken: usize) -> u64
    ensures { result ≡ packed refusal value entries taken }
{
    let counts = (entries % 65536) as u64 * 4294967296 + (taken % 32768) as u64 * 281474976710656;
    if refusal == 0 {
        return u64::from(value) + counts;
    }
    9223372036854775808 + u64::from(refusal) + counts
}

pub fn of_answer(a: Answer) -> u64
    ensures { result ≡ packed (refusal_of a) (value_of a) (entries_of a) (taken_of a) }
{
    pack(
        answer::refusal(a),
        answer::value(a),
        answer::entries(a),
        answer::taken(a),
    )
}

// Of a call that only reads a head.
pub fn of_reading(read: Result<(), Refusal>) -> u64
    ensures { result ≡ packed (number_of read) 0 0 0 }
{
    pack(refusal::number_of(read), 0, 0, 0)
}
