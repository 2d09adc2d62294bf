// The head record: from bytes to a head, refusals 1 to 3.
ghost use Rattle.std.specs.Prelude.{◌≡◌, ◌≤◌, length};
ghost use Rattle.refusal.specs.Refusal.{number_of};
ghost use Rattle.task.specs.bytes.{count_in};
ghost use Rattle.layout.specs.Layout.{most_tasks, length_of, buffer_bytes};
ghost use Rattle.head.specs.Record.{length_fits, head_refusal, head_of};
ghost use Rattle.head.specs.from_bytes.Decodes.{Decodes};

use crate::Head;
use refusal::Refusal;

// The length of a record with so many tasks.
pub fn length_of(count: u8) -> usize
    ensures { result ≡ length_of count }
{
    layout::LENGTH_WITHOUT_TASKS + layout::TASK_SIZE * (count as usize)
}

// Whether the buffer's length, the task count and the record's length fit each other.
#[tactic(auto, unfolding(crate::specs::Record::length_fits))]
fn length_fits(buffer: &[u8]) -> bool
    ensures { result ≡ length_fits buffer.now }
{
    if buffer.len() != layout::BUFFER_BYTES {
        return false;
    }
    let count = buffer[layout::TASK_COUNT_AT];
    if layout::MOST_TASKS < count as usize {
        return false;
    }
    record::two_bytes(buffer[0], buffer[1]) as usize == length_of(count)
}

// The tests of a record.
#[tactic(auto, unfolding(crate::specs::Record::head_refusal, crate::specs::Record::length_fits, record::specs::Refusals::first_of))]
pub fn test(buffer: &[u8]) -> Result<(), Refusal>
    ensures { number_of result ≡ head_refusal buffer.now }
{
    if !length_fits(buffer) {
        return Err(Refusal::Length);
    }
    if buffer[layout::VERSION_AT] != 1 {
        return Err(Refusal::Version);
    }
    if !register::bytes::codes::within(buffer) {
        return Err(Refusal::Code);
    }
    if !task::list::fit(buffer) {
        return Err(Refusal::Code);
    }
    Ok(())
}

// The head of a record that is not refused.
#[tactic(auto, unfolding(crate::specs::Record::head_of))]
pub fn read(buffer: &[u8]) -> Head
    requires { (length buffer.now ≡ buffer_bytes) × (count_in buffer.now ≤ most_tasks) }
    ensures { result ≡ head_of buffer.now }
{
    let regs = register::bytes::read(buffer);
    let tasks = task::bytes::read(buffer);
    Head {
        regs,
        hxt48_ready: buffer[layout::HXT48_READY_AT] == 1,
        hrc48_ready: buffer[layout::HRC48_READY_AT] == 1,
        lpsys_hxt48_ready: buffer[layout::LPSYS_HXT48_READY_AT] == 1,
        boot_mode: buffer[layout::BOOT_MODE_AT],
        wake_count: buffer[layout::WAKE_COUNT_AT],
        tasks,
        count: buffer[layout::TASK_COUNT_AT],
    }
}

// The head at the front of a buffer, or its refusal.
#[tactic(auto, using(crate::proofs::from_bytes::Passed::passed, crate::proofs::from_bytes::Decoding::decode_encodable))]
pub fn decode(buffer: &[u8]) -> Result<Head, Refusal>
    ensures { Decodes buffer.now result }
{
    test(buffer)?;
    Ok(read(buffer))
}
