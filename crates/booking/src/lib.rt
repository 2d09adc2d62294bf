// Booking a task on a head, within its clock, releasing one, and looking one up.
#![tactic(auto)]

pub mod tests;

ghost use Rattle.std.specs.Prelude.{[]};
ghost use Rattle.call.specs.Call.{Answers};
ghost use Rattle.booking.specs.Booking.{book};
ghost use Rattle.booking.specs.Release.{release};
ghost use Rattle.booking.specs.LookUp.{look_up_call};

use call::{Answer, Done, Refused};
use refusal::Refusal;
use task::Task;
use task::look_up::LookUp;

// Books a task of an id, cycles and a period in microseconds.
pub fn book(buffer: &mut [u8], id: u8, cycles: u32, period: u32) -> Answer
    ensures { Answers (book (record { id = id; cycles = cycles; period = period }) buffer.old) result buffer.new [] }
{
    let task = Task { id, cycles, period };
    let mut m = call::admit_head(buffer)?;
    tests::test(&m.head, task)?;
    head::tasks::book(&mut m.head, task);
    call::finish(&m, 0, buffer)
}

// Takes the task of an id out.
pub fn release(buffer: &mut [u8], id: u8) -> Answer
    ensures { Answers (release id buffer.old) result buffer.new [] }
{
    let mut m = call::admit_head(buffer)?;
    let LookUp::Hit(read) = task::look_up::look_up(m.head.booked(), id) else {
        return Err(Refused::from(Refusal::IdUnknown));
    };
    head::tasks::release(&mut m.head, usize::from(read) - 1);
    call::finish(&m, 0, buffer)
}

// Looks for the task of an id. The head is read once its tests are passed: a head that `?` hands on is a copy more.
#[tactic(auto, using(head::proofs::from_bytes::Passed::passed, head::proofs::from_bytes::Decoding::decode_encodable))]
pub fn look_up(buffer: &[u8], id: u8) -> Answer
    ensures { Answers (look_up_call id buffer.now) result buffer.now [] }
{
    head::from_bytes::test(buffer)?;
    let head = head::from_bytes::read(buffer);
    Ok(Done {
        value: task::look_up::look_up(head.booked(), id).value(),
        entries: 0,
        taken: 0,
    })
}
