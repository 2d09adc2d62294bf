// The setters of rcc/clock_lpsys.rs that select a source, one store each; `clock_lpsys` passes them on.
ghost use Rattle.std.specs.Prelude.{◌≡◌, true, ◌<◌};
ghost use Rattle.register.specs.Codes.{fits_register};
ghost use Rattle.call.specs.Call.{Answers};
ghost use Rattle.clock_lpsys.specs.selects.{select, select_sysclk, select_peri};

use call::Answer;

// The source 0 or 1 in the register that selects it.
fn select(buffer: &mut [u8], register: usize, source: u8, journal: &mut [u32]) -> Answer
    requires { (register < 35) × ((fits_register register 0 ≡ true) × (fits_register register 1 ≡ true)) }
    ensures { Answers (select register source buffer.old journal.old) result buffer.new journal.new }
{
    let test = lpsys_tests::test_source(source);
    call::store::store_once(buffer, test, register, u32::from(source), journal)
}

#[tactic(auto, unfolding(record::specs::Bytes::is_within, register::specs::Word::word_bytes, register::specs::Codes::fits_register, register::specs::Codes::largest))]
pub fn select_lpsys_sysclk(buffer: &mut [u8], source: u8, journal: &mut [u32]) -> Answer
    ensures { Answers (select_sysclk source buffer.old journal.old) result buffer.new journal.new }
{
    select(buffer, register::LPSYS_SYSCLK, source, journal)
}

#[tactic(auto, unfolding(record::specs::Bytes::is_within, register::specs::Word::word_bytes, register::specs::Codes::fits_register, register::specs::Codes::largest))]
pub fn select_lpsys_peri(buffer: &mut [u8], source: u8, journal: &mut [u32]) -> Answer
    ensures { Answers (select_peri source buffer.old journal.old) result buffer.new journal.new }
{
    select(buffer, register::LPSYS_PERI, source, journal)
}
