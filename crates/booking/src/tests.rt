// The tests of a booking, on a task and a head.
ghost use Rattle.std.specs.Prelude.{◌≡◌};
ghost use Rattle.refusal.specs.Refusal.{number_of};
ghost use Rattle.record.specs.Refusals.{first_of};
ghost use Rattle.head.specs.Encodable.{Encodable};
ghost use Rattle.booking.specs.tests.{book_tests};

use head::Head;
use refusal::Refusal;
use task::Task;

// 16, 40, 41, 34 and 39.
#[tactic(auto, unfolding(record::specs::Refusals::first_of))]
pub fn test(head: &Head, task: Task) -> Result<(), Refusal>
    requires { Encodable head.now }
    ensures { number_of result ≡ first_of (book_tests task head.now) }
{
    if !task::rules::ok(task) {
        return Err(Refusal::Task);
    }
    if task::rules::has_id(head.booked(), task.id) {
        return Err(Refusal::IdInUse);
    }
    if head.count == 16 {
        return Err(Refusal::Tasks);
    }
    let hclk = clock_read::get_hclk_freq(head).ok_or(Refusal::HclkUnreadable)?;
    let mut after = *head;
    head::tasks::book(&mut after, task);
    if u64::from(hclk.0) < load::total(after.booked()) {
        return Err(Refusal::Load);
    }
    Ok(())
}
