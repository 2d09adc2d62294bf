// The guarded change on lent bytes.
#![tactic(auto)]

pub mod tests;

ghost use Rattle.call.specs.Call.{Answers};
ghost use Rattle.guard.specs.Guard.{change_call};

use call::Answer;

// Sets the core clock of a fit head as the plan has it: the volts rise before the clock and settle after it.
pub fn change(buffer: &mut [u8], plan: &[u8], journal: &mut [u32], answers: &[u16]) -> Answer
    ensures { Answers (change_call plan.now buffer.old journal.old answers.now) result buffer.new journal.new }
{
    let mut m = call::admit_with_answers(buffer, journal, answers)?;
    let planned = verdict::planned::admit(plan)?;
    let hclk = planned.target.hclk;
    tests::test(planned.plan, hclk, &m.head)?;
    guard_change::change(&mut m, journal, answers, planned.plan, hclk);
    call::finish(&m, 0, buffer)
}
