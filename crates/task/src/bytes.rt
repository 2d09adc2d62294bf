// The booked tasks of a head record: their bytes and their places.
ghost use Rattle.std.specs.Prelude.{◌≡◌, ◌+◌, ◌*◌, ◌≤◌, length, drop};
ghost use Rattle.layout.specs.Layout.{most_tasks, first_task, period_end, task_size, buffer_bytes};
ghost use Rattle.record.specs.Items.{items, joined, laid};
ghost use Rattle.task.specs.bytes.{task_in, task_bytes, count_in, placed, places_in};

use crate::Task;

// The task at a place of a record.
pub fn task_at(buffer: &[u8], at: usize) -> Task
    requires { at + period_end ≤ length buffer.now }
    ensures { result ≡ task_in (drop at buffer.now) }
{
    let cycles = record::four_at(buffer, at + layout::CYCLES_AT);
    let period = record::four_at(buffer, at + layout::PERIOD_AT);
    Task {
        id: buffer[at],
        cycles,
        period,
    }
}

// Sixteen places, the first `count` with the tasks from a place of the bytes on, each `size` bytes after the one before it, the others empty.
pub fn tasks_at(bytes: &[u8], at: usize, size: usize, count: usize) -> [Task; layout::MOST_TASKS]
    requires { (period_end ≤ size) × ((at + size * count ≤ length bytes.now) × (count ≤ most_tasks)) }
    ensures { result ≡ placed (items task_in size count (drop at bytes.now)) count }
{
    let mut tasks = [Task::default(); layout::MOST_TASKS];
    for i in 0..count {
        tasks[i] = task_at(bytes, at + size * i);
    }
    tasks
}

// The sixteen places of a record, those past the booked tasks empty.
pub fn read(buffer: &[u8]) -> [Task; layout::MOST_TASKS]
    requires { (length buffer.now ≡ buffer_bytes) × (count_in buffer.now ≤ most_tasks) }
    ensures { result ≡ places_in buffer.now }
{
    let count = buffer[layout::TASK_COUNT_AT] as usize;
    tasks_at(buffer, layout::FIRST_TASK, layout::TASK_SIZE, count)
}

fn put_task(buffer: &mut [u8], at: usize, task: Task)
    requires { at + task_size ≤ length buffer.old }
    ensures { buffer.new ≡ laid at (task_bytes task) buffer.old }
{
    buffer[at] = task.id;
    record::put_four(buffer, at + layout::CYCLES_AT, task.cycles);
    record::put_four(buffer, at + layout::PERIOD_AT, task.period);
}

// Writes the booked tasks at their places.
#[tactic(auto, using(record::proofs::Laid::laid_item, record::proofs::Laid::laid_none, crate::proofs::bytes::Laws::task_length), unfolding(record::specs::Items::joined))]
pub fn write(tasks: &[Task], buffer: &mut [u8])
    requires { (length buffer.old ≡ buffer_bytes) × (length tasks.now ≤ most_tasks) }
    ensures { buffer.new ≡ laid first_task (joined task_bytes tasks.now) buffer.old }
{
    for (i, task) in tasks.iter().enumerate() {
        put_task(buffer, layout::FIRST_TASK + layout::TASK_SIZE * i, *task);
    }
}
