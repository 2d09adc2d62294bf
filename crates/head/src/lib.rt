// A head as a value: 34 registers, ready flags and booked tasks.
#![tactic(auto)]

pub mod from_bytes;
pub mod tasks;
pub mod to_bytes;

ghost use Rattle.std.specs.Prelude.{◌≡◌, ◌≤◌};
ghost use Rattle.layout.specs.Layout.{most_tasks};
ghost use Rattle.head.specs.Head.{booked};

pub use task::Task;

#[derive(Clone, Copy)]
pub struct Head {
    // Register n at index n, each its 24-bit value; number 0 is unused and 0.
    pub regs: [u32; 35],
    pub hxt48_ready: bool,
    pub hrc48_ready: bool,
    pub lpsys_hxt48_ready: bool,
    pub boot_mode: u8,
    pub wake_count: u8,
    // The first `count` are booked; those past them are all zero.
    pub tasks: [Task; layout::MOST_TASKS],
    pub count: u8,
}

impl Head {
    // The booked tasks.
    pub fn booked(&self) -> &[Task]
        requires { self.now.count ≤ most_tasks }
        ensures { result.now ≡ booked self.now }
    {
        &self.tasks[..usize::from(self.count)]
    }
}
