// The LPSYS calls.
ghost use Rattle.lpsys_request.specs.frequency.{lpsys_request, safe_frequency};
ghost use Rattle.clock_lpsys.specs.Calls.{wake_lcpu, cancel_lcpu, ensure_hxt48};
ghost use Rattle.clock_lpsys.specs.dividers.{set_lpsys_hdiv, set_lpsys_div, config_mac};
ghost use Rattle.clock_lpsys.specs.selects.{select_sysclk, select_peri};
ghost use Rattle.call.specs.word.{Gives};

use time::Megahertz;

#[unsafe(no_mangle)]
pub extern "C" fn rikkovan_config_lpsys_hclk_mhz(
    head: &mut [u8],
    freq_mhz: u32,
    journal: &mut [u32],
) -> u64
    ensures { Gives (lpsys_request freq_mhz head.old journal.old) result head.new journal.new }
{
    call::word::of_answer(clock_lpsys::config_lpsys_hclk_mhz(head, Megahertz(freq_mhz), journal))
}

#[unsafe(no_mangle)]
pub extern "C" fn rikkovan_ensure_safe_lcpu_frequency(head: &mut [u8], journal: &mut [u32]) -> u64
    ensures { Gives (safe_frequency head.old journal.old) result head.new journal.new }
{
    call::word::of_answer(clock_lpsys::ensure_safe_lcpu_frequency(head, journal))
}

#[unsafe(no_mangle)]
pub extern "C" fn rikkovan_wake_lcpu(head: &mut [u8], journal: &mut [u32], answers: &[u16]) -> u64
    ensures { Gives (wake_lcpu head.old journal.old answers.now) result head.new journal.new }
{
    call::word::of_answer(clock_lpsys::wake_lcpu(head, journal, answers))
}

#[unsafe(no_mangle)]
pub extern "C" fn rikkovan_cancel_lcpu_active_request(head: &mut [u8], journal: &mut [u32]) -> u64
    ensures { Gives (cancel_lcpu head.old journal.old) result head.new journal.new }
{
    call::word::of_answer(clock_lpsys::cancel_lcpu_active_request(head, journal))
}

#[unsafe(no_mangle)]
pub extern "C" fn rikkovan_ensure_hxt48_ready(
    head: &mut [u8],
    journal: &mut [u32],
    answers: &[u16],
) -> u64
    ensures { Gives (ensure_hxt48 head.old journal.old answers.now) result head.new journal.new }
{
    call::word::of_answer(clock_lpsys::ensure_hxt48_ready(head, journal, answers))
}

#[unsafe(no_mangle)]
pub extern "C" fn rikkovan_set_lpsys_hdiv(head: &mut [u8], hdiv: u8, journal: &mut [u32]) -> u64
    ensures { Gives (set_lpsys_hdiv hdiv head.old journal.old) result head.new journal.new }
{
    call::word::of_answer(clock_lpsys::set_lpsys_hdiv(head, hdiv, journal))
}

#[unsafe(no_mangle)]
pub extern "C" fn rikkovan_set_lpsys_div(
    head: &mut [u8],
    hdiv: u8,
    pdiv1: u8,
    pdiv2: u8,
    journal: &mut [u32],
) -> u64
    ensures { Gives (set_lpsys_div hdiv pdiv1 pdiv2 head.old journal.old) result head.new journal.new }
{
    call::word::of_answer(clock_lpsys::set_lpsys_div(head, hdiv, pdiv1, pdiv2, journal))
}

#[unsafe(no_mangle)]
pub extern "C" fn rikkovan_config_lpsys_mac_clock(
    head: &mut [u8],
    macdiv: u8,
    macfreq: u8,
    journal: &mut [u32],
) -> u64
    ensures { Gives (config_mac macdiv macfreq head.old journal.old) result head.new journal.new }
{
    call::word::of_answer(clock_lpsys::config_lpsys_mac_clock(head, macdiv, macfreq, journal))
}

#[unsafe(no_mangle)]
pub extern "C" fn rikkovan_select_lpsys_sysclk(
    head: &mut [u8],
    source: u8,
    journal: &mut [u32],
) -> u64
    ensures { Gives (select_sysclk source head.old journal.old) result head.new journal.new }
{
    call::word::of_answer(clock_lpsys::select_lpsys_sysclk(head, source, journal))
}

#[unsafe(no_mangle)]
pub extern "C" fn rikkovan_select_lpsys_peri(
    head: &mut [u8],
    source: u8,
    journal: &mut [u32],
) -> u64
    ensures { Gives (select_peri source head.old journal.old) result head.new journal.new }
{
    call::word::of_answer(clock_lpsys::select_lpsys_peri(head, source, journal))
}
