// The LPSYS calls, run on an argument's bytes.
ghost use Rattle.std.specs.Prelude.{◌≤◌, ◌≡◌, length};
ghost use Rattle.call.specs.Call.{Answers};
ghost use Rattle.recorded_call.specs.lpsys.{result_of};
ghost use Rattle.recorded_call.specs.lpsys_entries.{result_within};

use call::Answer;
use recorded_line::calls::HeadCall;
use recorded_line::{byte_at, four_at};
use time::Megahertz;

#[derive(Clone, Copy)]
pub enum Call {
    Request,
    Safe,
    Wake,
    Cancel,
    Hxt48,
    Hdiv,
    Div,
    Mac,
    Sysclk,
    Peri,
}

// Each is lent no clocks.
impl HeadCall for Call {
    ghost means = { λ call. record { result_of = result_of call; clocks_after = λ former x b j a. former; lent_clocks = 0 } };

    fn lent_clocks(self) -> usize {
        0
    }

    fn run(
        self,
        argument: &[u8],
        _clocks: &mut [u32; 15],
        buffer: &mut [u8],
        journal: &mut [u32],
        answers: &[u16],
    ) -> Answer {
        let mhz = four_at(argument, 0);
        let a = byte_at(argument, 0);
        let b = byte_at(argument, 1);
        let c = byte_at(argument, 2);
        match self {
            Call::Request => clock_lpsys::config_lpsys_hclk_mhz(buffer, Megahertz(mhz), journal),
            Call::Safe => clock_lpsys::ensure_safe_lcpu_frequency(buffer, journal),
            Call::Wake => clock_lpsys::wake_lcpu(buffer, journal, answers),
            Call::Cancel => clock_lpsys::cancel_lcpu_active_request(buffer, journal),
            Call::Hxt48 => clock_lpsys::ensure_hxt48_ready(buffer, journal, answers),
            Call::Hdiv => clock_lpsys::set_lpsys_hdiv(buffer, a, journal),
            Call::Div => clock_lpsys::set_lpsys_div(buffer, a, b, c, journal),
            Call::Mac => clock_lpsys::config_lpsys_mac_clock(buffer, a, b, journal),
            Call::Sysclk => clock_lpsys::select_lpsys_sysclk(buffer, a, journal),
            Call::Peri => clock_lpsys::select_lpsys_peri(buffer, a, journal),
        }
    }

    ghost within = { result_within };
}
