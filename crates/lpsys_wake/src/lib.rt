// Waking the LPSYS core, and cancelling that, on a running call.
#![tactic(auto)]

pub mod count;
pub mod hxt48;

ghost use Rattle.journal.specs.Machine.{Lent, Does, none, taking};
ghost use Rattle.lpsys_wake.specs.Wake.{wake_first, wake, cancel};

use journal::Machine;

// The request, and the first wait for the LPSYS core to be active.
#[tactic(auto, unfolding(record::specs::Bytes::is_within, register::specs::Word::word_bytes, register::specs::Codes::fits_register, register::specs::Codes::largest))]
fn wake_first(m: &mut Machine, journal: &mut [u32], answers: &[u16])
    requires { Lent 3 m.old journal.old (taking answers.now) }
    ensures { Does 3 (wake_first answers.now) m.old m.new journal.old journal.new (taking answers.now) }
{
    m.store(journal, register::HP2LP_REQUEST, 1);
    journal::delay_us(m, journal, 230);
    waits::wait_for(m, journal, answers, 6);
}

pub fn wake(m: &mut Machine, journal: &mut [u32], answers: &[u16])
    requires { Lent 5 m.old journal.old (taking answers.now) }
    ensures { Does 5 (wake answers.now) m.old m.new journal.old journal.new (taking answers.now) }
{
    wake_first(m, journal, answers);
    journal::delay_us(m, journal, 30);
    waits::wait_for(m, journal, answers, 6);
    count::count_up(m);
}

#[tactic(auto, unfolding(record::specs::Bytes::is_within, register::specs::Word::word_bytes, register::specs::Codes::fits_register, register::specs::Codes::largest))]
pub fn cancel(m: &mut Machine, journal: &mut [u32])
    requires { Lent 1 m.old journal.old none }
    ensures { Does 1 cancel m.old m.new journal.old journal.new none }
{
    let count = m.head.wake_count;
    count::count_down(m);
    if count == 1 {
        m.store(journal, register::HP2LP_REQUEST, 0);
    }
}
