// rcc/clock_lpsys.rs: the calls that set the clocks of the low-power system. Its readings are in `clock_read::lpsys`.
#![tactic(auto)]

pub mod dividers;
pub mod selects;

ghost use Rattle.journal.specs.Machine.{Lent, Does, taking};
ghost use Rattle.call.specs.Call.{Answers};
ghost use Rattle.clock_lpsys.specs.Calls.{wake_lcpu, cancel_lcpu, ensure_hxt48, wake_and_slow, wake_and_slow_lcpu};

use call::Answer;
pub use dividers::{config_lpsys_mac_clock, set_lpsys_div, set_lpsys_hdiv};
use journal::Machine;
pub use lpsys_request::frequency::{config_lpsys_hclk_mhz, ensure_safe_lcpu_frequency};
pub use selects::{select_lpsys_peri, select_lpsys_sysclk};
use time::Hertz;

pub fn wake_lcpu(buffer: &mut [u8], journal: &mut [u32], answers: &[u16]) -> Answer
    ensures { Answers (wake_lcpu buffer.old journal.old answers.now) result buffer.new journal.new }
{
    let mut m = call::admit_with_answers(buffer, journal, answers)?;
    lpsys_wake::wake(&mut m, journal, answers);
    call::finish(&m, 0, buffer)
}

pub fn cancel_lcpu_active_request(buffer: &mut [u8], journal: &mut [u32]) -> Answer
    ensures { Answers (cancel_lcpu buffer.old journal.old) result buffer.new journal.new }
{
    let mut m = call::admit(buffer, journal)?;
    lpsys_wake::cancel(&mut m, journal);
    call::finish(&m, 0, buffer)
}

pub fn ensure_hxt48_ready(buffer: &mut [u8], journal: &mut [u32], answers: &[u16]) -> Answer
    ensures { Answers (ensure_hxt48 buffer.old journal.old answers.now) result buffer.new journal.new }
{
    let mut m = call::admit_with_answers(buffer, journal, answers)?;
    lpsys_wake::hxt48::hxt48_ready(&mut m, journal, answers);
    call::finish(&m, 0, buffer)
}

// `wake_lcpu`, then `ensure_safe_lcpu_frequency`, whose 43 comes after the wake.
fn wake_and_slow(m: &mut Machine, journal: &mut [u32], answers: &[u16])
    requires { Lent 11 m.old journal.old (taking answers.now) }
    ensures { Does 11 (wake_and_slow answers.now) m.old m.new journal.old journal.new (taking answers.now) }
{
    lpsys_wake::wake(m, journal, answers);
    lpsys_request::slow::refuse_unread(m);
    lpsys_request::slow::slow_down(m, journal);
}

// Both on lent bytes; answers the LPSYS HCLK before the call in Hz.
pub fn wake_and_slow_lcpu(buffer: &mut [u8], journal: &mut [u32], answers: &[u16]) -> Answer
    ensures { Answers (wake_and_slow_lcpu buffer.old journal.old answers.now) result buffer.new journal.new }
{
    let mut m = call::admit_with_answers(buffer, journal, answers)?;
    let before = clock_read::lpsys::get_lpsys_hclk_freq(&m.head).unwrap_or(Hertz(0));
    wake_and_slow(&mut m, journal, answers);
    call::finish(&m, before.0, buffer)
}
