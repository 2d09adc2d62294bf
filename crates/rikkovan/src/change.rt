// The guarded change.
ghost use Rattle.guard.specs.Guard.{change_call};
ghost use Rattle.call.specs.word.{Gives};

#[unsafe(no_mangle)]
pub extern "C" fn rikkovan_change(
    head: &mut [u8],
    plan: &[u8],
    journal: &mut [u32],
    answers: &[u16],
) -> u64
    ensures { Gives (change_call plan.now head.old journal.old answers.now) result head.new journal.new }
{
    call::word::of_answer(guard::change(head, plan, journal, answers))
}
