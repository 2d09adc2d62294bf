// The calls of rcc/clock_config.rs.
ghost use Rattle.std.specs.Prelude.{◌≡◌};
ghost use Rattle.clock_config.specs.calibrate.{calibration};
ghost use Rattle.clock_config.specs.init.{init_call, init_clocks};
ghost use Rattle.clock_config.specs.reconfigure.{reconfigure_call, reconfigure_clocks};
ghost use Rattle.call.specs.word.{Gives};

#[unsafe(no_mangle)]
pub extern "C" fn rikkovan_calibrate_hrc48(
    head: &mut [u8],
    journal: &mut [u32],
    answers: &[u16],
) -> u64
    ensures { Gives (calibration head.old journal.old answers.now) result head.new journal.new }
{
    call::word::of_answer(clock_config::calibrate_hrc48(head, journal, answers))
}

// `clocks` is written on every answer: all 0 on a refusal.
#[unsafe(no_mangle)]
pub extern "C" fn rikkovan_init(
    head: &mut [u8],
    plan: &[u8],
    clocks: &mut [u32; 15],
    journal: &mut [u32],
    answers: &[u16],
) -> u64
    ensures gives { Gives (init_call plan.now head.old journal.old answers.now) result head.new journal.new }
    ensures clocks_after { clocks.new ≡ init_clocks plan.now head.old journal.old answers.now }
{
    call::word::of_answer(clock_config::init(head, plan, clocks, journal, answers))
}

// `clocks` holds the former frequencies, then the new ones; on a refusal it stays.
#[unsafe(no_mangle)]
pub extern "C" fn rikkovan_reconfigure_sysclk(
    head: &mut [u8],
    plan: &[u8],
    clocks: &mut [u32; 15],
    journal: &mut [u32],
    answers: &[u16],
) -> u64
    ensures gives { Gives (reconfigure_call plan.now head.old journal.old answers.now) result head.new journal.new }
    ensures clocks_after { clocks.new ≡ reconfigure_clocks clocks.old plan.now head.old journal.old answers.now }
{
    call::word::of_answer(clock_config::reconfigure_sysclk(head, plan, clocks, journal, answers))
}
