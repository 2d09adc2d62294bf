// The booked tasks of a head: one more, or one less.
ghost use Rattle.std.specs.Prelude.{◌≡◌, ◌<◌};
ghost use Rattle.layout.specs.Layout.{most_tasks};
ghost use Rattle.head.specs.Encodable.{Encodable};
ghost use Rattle.head.specs.tasks.{with_task, without_place, moved_up};

use crate::Head;
use task::Task;

// Books a task last.
pub fn book(head: &mut Head, task: Task)
    requires encodable { Encodable head.old }
    requires count_lt_most_tasks { head.old.count < most_tasks }
    ensures { head.new ≡ with_task task head.old }
{
    head.tasks[usize::from(head.count)] = task;
    head.count += 1;
}

// Takes the place at `at` out, and moves the later ones up.
fn move_up(tasks: &mut [Task; layout::MOST_TASKS], at: usize)
    requires { at < most_tasks }
    ensures { tasks.new ≡ moved_up at tasks.old }
{
    // A loop: with copy_within a release takes a seventh longer.
    for i in at..15 {
        tasks[i] = tasks[i + 1];
    }
    tasks[15] = Task::default();
}

// Takes the task at a place out.
pub fn release(head: &mut Head, at: usize)
    requires encodable { Encodable head.old }
    requires at_lt_count { at < head.old.count }
    ensures { head.new ≡ without_place at head.old }
{
    move_up(&mut head.tasks, at);
    head.count -= 1;
}
