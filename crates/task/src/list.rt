// The tests of tasks that lie in lent bytes, each `size` bytes after the one before it. They are read where
// they lie, so that a test copies no list of tasks.
ghost use Rattle.std.specs.Prelude.{◌≡◌, ◌*◌, ◌≤◌, length, drop};
ghost use Rattle.layout.specs.Layout.{most_tasks, period_end, buffer_bytes};
ghost use Rattle.record.specs.Items.{items};
ghost use Rattle.task.specs.Task.{all_ok, has_id, distinct};
ghost use Rattle.task.specs.bytes.{task_in, count_in, tasks_fit};

// Whether 16 would refuse none of the tasks.
pub fn all_ok(bytes: &[u8], size: usize, count: usize) -> bool
    requires { (period_end ≤ size) × (size * count ≤ length bytes.now) }
    ensures { result ≡ all_ok (items task_in size count bytes.now) }
{
    (0..count).all(|i| crate::rules::ok(crate::bytes::task_at(bytes, size * i)))
}

// Whether one of the tasks from `from` on has the id. This is the inner loop of each head that has tasks. By `any`, here or in `distinct`, it
// has 17 bytes of machine code and not 14, which take twice as long where they come to lie over an edge of 32.
fn has_id(bytes: &[u8], size: usize, from: usize, count: usize, id: u8) -> bool
    requires { (from ≤ count) × ((period_end ≤ size) × (size * count ≤ length bytes.now)) }
    ensures { result ≡ has_id id (drop from (items task_in size count bytes.now)) }
{
    for i in from..count {
        if bytes[size * i] == id {
            return true;
        }
    }
    false
}

// Whether no two of the tasks have the same id.
pub fn distinct(bytes: &[u8], size: usize, count: usize) -> bool
    requires { (period_end ≤ size) × (size * count ≤ length bytes.now) }
    ensures { result ≡ distinct (items task_in size count bytes.now) }
{
    for i in 0..count {
        if has_id(bytes, size, i + 1, count, bytes[size * i]) {
            return false;
        }
    }
    true
}

// Whether a record's tasks are such that neither 16 nor 40 would refuse one.
pub fn fit(buffer: &[u8]) -> bool
    requires { (length buffer.now ≡ buffer_bytes) × (count_in buffer.now ≤ most_tasks) }
    ensures { result ≡ tasks_fit buffer.now }
{
    let count = buffer[layout::TASK_COUNT_AT] as usize;
    let tasks = &buffer[layout::FIRST_TASK..];
    all_ok(tasks, layout::TASK_SIZE, count) && distinct(tasks, layout::TASK_SIZE, count)
}
