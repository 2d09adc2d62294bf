// Calls on a head's bytes: the tests that they share, and the way from the bytes to a running call and back.
#![tactic(auto)]

pub mod answer;
pub mod clocks;
pub mod store;
pub mod word;

ghost use Rattle.std.specs.Prelude.{◌≡◌, length};
ghost use Rattle.head.specs.Encodable.{Encodable};
ghost use Rattle.head.specs.Record.{buffer_bytes};
ghost use Rattle.call.specs.Call.{head_tests, journal_tests, answers_tests, Admits, Finishes};

pub use answer::{Answer, Done, Refused};
use journal::Machine;
use refusal::Refusal;

pub const JOURNAL_WORDS: usize = 128;

pub const MOST_ANSWERS: usize = 4096;

// The head's 1 to 3, and a call as it begins on the head.
#[tactic(auto, using(head::proofs::from_bytes::Passed::passed, head::proofs::from_bytes::Decoding::decode_encodable, record::proofs::Refusals::only_test))]
pub fn admit_head(buffer: &[u8]) -> Result<Machine, Refusal>
    ensures { Admits (head_tests buffer.now) buffer.now result }
{
    head::from_bytes::test(buffer)?;
    Ok(Machine {
        head: head::from_bytes::read(buffer),
        at: 0,
        taken: 0,
        stop: None,
    })
}

// 17, then the head's 1 to 3.
pub fn admit(buffer: &[u8], journal: &[u32]) -> Result<Machine, Refusal>
    ensures { Admits (journal_tests buffer.now journal.now) buffer.now result }
{
    if journal.len() < JOURNAL_WORDS {
        return Err(Refusal::Journal);
    }
    admit_head(buffer)
}

// 17, 18, then the head's 1 to 3.
pub fn admit_with_answers(
    buffer: &[u8],
    journal: &[u32],
    answers: &[u16],
) -> Result<Machine, Refusal>
    ensures { Admits (answers_tests buffer.now journal.now answers.now) buffer.now result }
{
    if journal.len() < JOURNAL_WORDS {
        return Err(Refusal::Journal);
    }
    if MOST_ANSWERS < answers.len() {
        return Err(Refusal::Answers);
    }
    admit_head(buffer)
}

// The answer of a call that has come to its end, with its head written back.
pub fn finish(m: &Machine, value: u32, buffer: &mut [u8]) -> Answer
    requires encodable { Encodable m.now.head }
    requires buffer_len { length buffer.old ≡ buffer_bytes }
    ensures { Finishes m.now value result buffer.old buffer.new }
{
    head::to_bytes::encode(&m.head, buffer);
    match m.stop {
        None => Ok(Done {
            value,
            entries: m.at,
            taken: m.taken,
        }),
        Some(refusal) => Err(Refused {
            refusal,
            entries: m.at,
            taken: m.taken,
        }),
    }
}
