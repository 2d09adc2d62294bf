// The load check: the load of a list of tasks, lent as bytes.
ghost use Rattle.std.specs.Prelude.{◌≡◌};
ghost use Rattle.refusal.specs.Refusal.{numbered};
ghost use Rattle.load.specs.check.{load_check, check_word};

use refusal::Refusal;

// A task of the list has so many bytes, whatever it has in a head.
const LISTED_SIZE: usize = 9;

#[tactic(auto, unfolding(crate::specs::check::load_check, crate::specs::check::check_refusal, crate::specs::check::listed_tasks, record::specs::Refusals::first_of))]
pub fn load_check(bytes: &[u8]) -> Result<u64, Refusal>
    ensures { numbered result ≡ load_check bytes.now }
{
    if bytes.len() % LISTED_SIZE != 0 {
        return Err(Refusal::Length);
    }
    let count = bytes.len() / LISTED_SIZE;
    if layout::MOST_TASKS < count {
        return Err(Refusal::Tasks);
    }
    if !task::list::all_ok(bytes, LISTED_SIZE, count) {
        return Err(Refusal::Task);
    }
    if !task::list::distinct(bytes, LISTED_SIZE, count) {
        return Err(Refusal::IdInUse);
    }
    let tasks = task::bytes::tasks_at(bytes, 0, LISTED_SIZE, count);
    Ok(crate::total(&tasks[..count]))
}

// The load, or the refusal with the top bit set.
pub fn word(checked: Result<u64, Refusal>) -> u64
    ensures { result ≡ check_word (numbered checked) }
{
    match checked {
        Ok(load) => load,
        Err(refusal) => 9223372036854775808 + u64::from(refusal.number()),
    }
}
