// The calls of rcc/clock_lpsys.rs that set the frequency of LPSYS; `clock_lpsys` passes them on.
ghost use Rattle.call.specs.Call.{Answers};
ghost use Rattle.lpsys_request.specs.frequency.{lpsys_request, safe_frequency};

use call::Answer;
use refusal::Refusal;
use time::Megahertz;

// An LPSYS request: LPSYS HCLK in whole MHz, 1 to 48.
pub fn config_lpsys_hclk_mhz(buffer: &mut [u8], freq: Megahertz, journal: &mut [u32]) -> Answer
    ensures { Answers (lpsys_request freq.0 buffer.old journal.old) result buffer.new journal.new }
{
    let mut m = call::admit(buffer, journal)?;
    lpsys_tests::test_request(freq)?;
    crate::request(&mut m, journal, freq);
    call::finish(&m, 0, buffer)
}

// Slows LPSYS down to 24 MHz where it is faster, and answers the old frequency in Hz.
pub fn ensure_safe_lcpu_frequency(buffer: &mut [u8], journal: &mut [u32]) -> Answer
    ensures { Answers (safe_frequency buffer.old journal.old) result buffer.new journal.new }
{
    let mut m = call::admit(buffer, journal)?;
    let f = clock_read::lpsys::get_lpsys_hclk_freq(&m.head).ok_or(Refusal::LpsysHclkUnreadable)?;
    crate::slow::slow_down(&mut m, journal);
    call::finish(&m, f.0, buffer)
}
