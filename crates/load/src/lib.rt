// The share of a task, and the load of a list of tasks.
#![tactic(auto)]

pub mod check;

ghost use Rattle.std.specs.Prelude.{◌≡◌, ◌≤◌, length};
ghost use Rattle.layout.specs.Layout.{most_tasks};
ghost use Rattle.load.specs.Load.{share_of, load_of};

use task::Task;

// The share of a task, rounded up; 0 where the period is 0.
pub fn share(cycles: u32, period: u32) -> u64
    ensures share { result ≡ share_of cycles period }
    ensures small { result ≤ 4294971590967296 }
{
    if period == 0 {
        return 0;
    }
    (u64::from(cycles) * 1_000_000).div_ceil(u64::from(period))
}

// The sum of the shares of at most 16 tasks.
pub fn total(tasks: &[Task]) -> u64
    requires { length tasks.now ≤ most_tasks }
    ensures { result ≡ load_of tasks.now }
{
    tasks
        .iter()
        .map(|task| share(task.cycles, task.period))
        .sum()
}
