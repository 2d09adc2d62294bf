// The head record: a head from a value to bytes.
ghost use Rattle.std.specs.Prelude.{◌≡◌, ◌≤◌, length};
ghost use Rattle.record.specs.Items.{laid};
ghost use Rattle.record.specs.Bytes.{bit};
ghost use Rattle.layout.specs.Layout.{hxt48_ready_at, most_tasks, buffer_bytes};
ghost use Rattle.head.specs.Record.{front_of, state_of, written};

use crate::Head;

// The length and the version.
fn write_front(count: u8, buffer: &mut [u8])
    requires { (length buffer.old ≡ buffer_bytes) × (count ≤ most_tasks) }
    ensures { buffer.new ≡ laid 0 (front_of count) buffer.old }
{
    let [high, low] = (crate::from_bytes::length_of(count) as u16).to_be_bytes();
    record::put(buffer, 0, &[high, low, 1]);
}

// The ready flags, boot mode, wake count and task count.
fn write_state(head: &Head, buffer: &mut [u8])
    requires { length buffer.old ≡ buffer_bytes }
    ensures { buffer.new ≡ laid hxt48_ready_at (state_of head.now) buffer.old }
{
    let state = [
        u8::from(head.hxt48_ready),
        u8::from(head.hrc48_ready),
        u8::from(head.lpsys_hxt48_ready),
        head.boot_mode,
        head.wake_count,
        head.count,
    ];
    record::put(buffer, layout::HXT48_READY_AT, &state);
}

// Writes a head's record at the front of a buffer.
pub fn encode(head: &Head, buffer: &mut [u8])
    requires { (length buffer.old ≡ buffer_bytes) × (head.now.count ≤ most_tasks) }
    ensures { buffer.new ≡ written head.now buffer.old }
{
    write_front(head.count, buffer);
    register::bytes::write(&head.regs, buffer);
    write_state(head, buffer);
    task::bytes::write(head.booked(), buffer);
}
