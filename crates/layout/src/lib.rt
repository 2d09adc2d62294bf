// The layout of a head record: the places of its bytes, its sizes and its lengths.
#![tactic(auto)]

// The length has places 0 and 1.
pub const VERSION_AT: usize = 2;

// Register n stands at n times this size.
pub const REGISTER_SIZE: usize = 3;

pub const HXT48_READY_AT: usize = REGISTER_SIZE * 35;

pub const HRC48_READY_AT: usize = HXT48_READY_AT + 1;

pub const LPSYS_HXT48_READY_AT: usize = HRC48_READY_AT + 1;

pub const BOOT_MODE_AT: usize = LPSYS_HXT48_READY_AT + 1;

pub const WAKE_COUNT_AT: usize = BOOT_MODE_AT + 1;

pub const TASK_COUNT_AT: usize = WAKE_COUNT_AT + 1;

pub const FIRST_TASK: usize = TASK_COUNT_AT + 1;

// The bytes that have codes: the registers and the ready flags.
pub const CODED_SIZE: usize = BOOT_MODE_AT - REGISTER_SIZE;

// The places in a task, after its id.
pub const CYCLES_AT: usize = 1;

pub const PERIOD_AT: usize = CYCLES_AT + 4;

pub const TASK_SIZE: usize = 9;

pub const MOST_TASKS: usize = 16;

// What the length of a record with no task is.
pub const LENGTH_WITHOUT_TASKS: usize = 109;

// The record stands at the front of a buffer of so many bytes.
pub const BUFFER_BYTES: usize = 255;
