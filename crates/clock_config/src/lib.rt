// The calls of rcc/clock_config.rs on lent bytes: the calibration, the initialisation and a change of the core's clock.
#![tactic(auto)]

ghost use Rattle.std.specs.Prelude.{◌≡◌};
ghost use Rattle.call.specs.Call.{Answers};
ghost use Rattle.clock_config.specs.calibrate.{calibration};
ghost use Rattle.clock_config.specs.init.{init_call, init_clocks};
ghost use Rattle.clock_config.specs.reconfigure.{reconfigure_call, reconfigure_clocks};

use call::{Answer, Refused};
use refusal::Refusal;

// Calibrates HRC48 against HXT48; 31 without HXT48.
pub fn calibrate_hrc48(buffer: &mut [u8], journal: &mut [u32], answers: &[u16]) -> Answer
    ensures { Answers (calibration buffer.old journal.old answers.now) result buffer.new journal.new }
{
    let mut machine = call::admit_with_answers(buffer, journal, answers)?;
    if !machine.head.hxt48_ready {
        return Err(Refused::from(Refusal::Hxt48NotReady));
    }
    calibration::calibrate_hrc48(&mut machine, journal, answers);
    call::finish(&machine, 0, buffer)
}

// Brings a head's clocks up as the plan has them, and gives its frequencies: all none on a refusal. The value is 0, or the 31 or 33 that
// ended the calibration.
pub fn init(
    buffer: &mut [u8],
    plan: &[u8],
    clocks: &mut [u32; 15],
    journal: &mut [u32],
    answers: &[u16],
) -> Answer
    ensures answers { Answers (init_call plan.now buffer.old journal.old answers.now) result buffer.new journal.new }
    ensures clocks_after { clocks.new ≡ init_clocks plan.now buffer.old journal.old answers.now }
{
    *clocks = [0; 15];
    let mut m = call::admit_with_answers(buffer, journal, answers)?;
    let planned = verdict::planned::admit(plan)?;
    let warning = clock_init::init(&mut m, journal, answers, planned.plan, planned.target);
    *clocks = call::clocks::clocks_after(&m);
    let value = warning.map_or(0, Refusal::number);
    call::finish(&m, u32::from(value), buffer)
}

// Sets the core clock of a running head as the plan has it. `clocks` are the former frequencies, then the new ones with the same audio
// PLL pair; on a refusal the former stay.
pub fn reconfigure_sysclk(
    buffer: &mut [u8],
    plan: &[u8],
    clocks: &mut [u32; 15],
    journal: &mut [u32],
    answers: &[u16],
) -> Answer
    ensures answers { Answers (reconfigure_call plan.now buffer.old journal.old answers.now) result buffer.new journal.new }
    ensures clocks_after { clocks.new ≡ reconfigure_clocks clocks.old plan.now buffer.old journal.old answers.now }
{
    let mut m = call::admit_with_answers(buffer, journal, answers)?;
    let planned = verdict::planned::admit(plan)?;
    core_clock::switch::config_hcpu_dvfs(
        &mut m,
        journal,
        answers,
        planned.plan,
        planned.target.hclk,
    );
    *clocks = call::clocks::clocks_beside(&m, *clocks);
    call::finish(&m, 0, buffer)
}
