// The setters of rcc/clock_lpsys.rs that set dividers, one store each; `clock_lpsys` passes them on.
ghost use Rattle.call.specs.Call.{Answers};
ghost use Rattle.clock_lpsys.specs.dividers.{set_lpsys_hdiv, set_lpsys_div, config_mac};

use call::Answer;

pub fn set_lpsys_hdiv(buffer: &mut [u8], hdiv: u8, journal: &mut [u32]) -> Answer
    ensures { Answers (set_lpsys_hdiv hdiv buffer.old journal.old) result buffer.new journal.new }
{
    let mut m = call::admit(buffer, journal)?;
    lpsys_request::hdiv::set_hdiv(&mut m, journal, hdiv);
    call::finish(&m, 0, buffer)
}

pub fn set_lpsys_div(
    buffer: &mut [u8],
    hdiv: u8,
    pdiv1: u8,
    pdiv2: u8,
    journal: &mut [u32],
) -> Answer
    ensures { Answers (set_lpsys_div hdiv pdiv1 pdiv2 buffer.old journal.old) result buffer.new journal.new }
{
    let test = lpsys_tests::test_div(pdiv1, pdiv2);
    let word = lpsys_tests::words::div_word(hdiv, pdiv1, pdiv2);
    call::store::store_once(buffer, test, register::LPSYS_CFGR, word, journal)
}

pub fn config_lpsys_mac_clock(
    buffer: &mut [u8],
    macdiv: u8,
    macfreq: u8,
    journal: &mut [u32],
) -> Answer
    ensures { Answers (config_mac macdiv macfreq buffer.old journal.old) result buffer.new journal.new }
{
    let word = lpsys_tests::words::mac_word(macdiv, macfreq);
    call::store::store_once(buffer, Ok(()), register::LPSYS_MAC, word, journal)
}
