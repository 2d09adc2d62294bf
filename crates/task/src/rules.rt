// The rules of tasks.
ghost use Rattle.std.specs.Prelude.{◌≡◌, ◌≤◌, length};
ghost use Rattle.layout.specs.Layout.{most_tasks};
ghost use Rattle.task.specs.Task.{task_ok, has_id};

use crate::Task;
use crate::look_up::LookUp;

// A task that a booking would not refuse by 16.
pub fn ok(task: Task) -> bool
    ensures { result ≡ task_ok task }
{
    task.id != 0 && task.cycles != 0 && (1..=10_000_000).contains(&task.period)
}

// Whether one of the tasks has the id.
pub fn has_id(tasks: &[Task], id: u8) -> bool
    requires { length tasks.now ≤ most_tasks }
    ensures { result ≡ has_id id tasks.now }
{
    matches!(crate::look_up::look_up(tasks, id), LookUp::Hit(_))
}
