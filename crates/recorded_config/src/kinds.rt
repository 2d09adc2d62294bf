// The calls of rcc/clock_config.rs and the guarded change, run on a plan's bytes.
ghost use Rattle.std.specs.Prelude.{◌≤◌, ◌≡◌, length};
ghost use Rattle.call.specs.Call.{Answers};
ghost use Rattle.recorded_config.specs.Calls.{result_of, clocks_after};
ghost use Rattle.recorded_config.specs.kinds.{lent_clocks};
ghost use Rattle.recorded_config.specs.entries.{result_within};

use call::Answer;
use recorded_line::calls::HeadCall;

#[derive(Clone, Copy)]
pub enum Call {
    Calibrate,
    Init,
    Reconfigure,
    Change,
}

impl HeadCall for Call {
    ghost means = { λ call. record { result_of = result_of call; clocks_after = clocks_after call; lent_clocks = lent_clocks call } };

    fn lent_clocks(self) -> usize {
        match self {
            Call::Calibrate => 0,
            Call::Init => 15,
            Call::Reconfigure => 15,
            Call::Change => 0,
        }
    }

    fn run(
        self,
        plan: &[u8],
        clocks: &mut [u32; 15],
        buffer: &mut [u8],
        journal: &mut [u32],
        answers: &[u16],
    ) -> Answer {
        match self {
            Call::Calibrate => clock_config::calibrate_hrc48(buffer, journal, answers),
            Call::Init => clock_config::init(buffer, plan, clocks, journal, answers),
            Call::Reconfigure => {
                clock_config::reconfigure_sysclk(buffer, plan, clocks, journal, answers)
            }
            Call::Change => guard::change(buffer, plan, journal, answers),
        }
    }

    ghost within = { result_within };
}
