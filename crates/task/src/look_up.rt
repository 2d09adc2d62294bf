// Looking a task id up.
ghost use Rattle.std.specs.Prelude.{◌≡◌, ◌≤◌, length};
ghost use Rattle.layout.specs.Layout.{most_tasks};
ghost use Rattle.task.specs.look_up.{look_up, value_of};

use crate::Task;

// Whether a task has the id, and how many tasks were read.
#[derive(Clone, Copy)]
pub enum LookUp {
    Hit(u8),
    Miss(u8),
}

impl LookUp {
    // Both in one number: twice the tasks read, and one more on a hit.
    pub fn value(self) -> u32
        ensures { result ≡ value_of self }
    {
        match self {
            LookUp::Hit(read) => read as u32 * 2 + 1,
            LookUp::Miss(read) => read as u32 * 2,
        }
    }
}

// Reads the tasks up to the one that has the id.
pub fn look_up(tasks: &[Task], id: u8) -> LookUp
    requires { length tasks.now ≤ most_tasks }
    ensures { result ≡ look_up id tasks.now }
{
    match tasks.iter().position(|task| task.id == id) {
        Some(at) => LookUp::Hit(at as u8 + 1),
        None => LookUp::Miss(tasks.len() as u8),
    }
}
