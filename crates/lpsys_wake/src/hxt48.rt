// The crystal HXT48 of both domains, requested and waited for on a running call.
#![tactic(auto, unfolding(record::specs::Bytes::is_within, register::specs::Word::word_bytes, register::specs::Codes::fits_register, register::specs::Codes::largest))]

ghost use Rattle.journal.specs.Machine.{Lent, Does, taking};
ghost use Rattle.lpsys_wake.specs.hxt48.{request_hxt48, request_lpsys_hxt48, hxt48_ready};

use journal::Machine;

fn request_hxt48(m: &mut Machine, journal: &mut [u32], answers: &[u16])
    requires { Lent 2 m.old journal.old (taking answers.now) }
    ensures { Does 2 (request_hxt48 answers.now) m.old m.new journal.old journal.new (taking answers.now) }
{
    if m.head.hxt48_ready {
        return;
    }
    m.store(journal, register::HXT48_REQUEST, 1);
    waits::hxt48::wait_hxt48(m, journal, answers);
}

fn request_lpsys_hxt48(m: &mut Machine, journal: &mut [u32], answers: &[u16])
    requires { Lent 2 m.old journal.old (taking answers.now) }
    ensures { Does 2 (request_lpsys_hxt48 answers.now) m.old m.new journal.old journal.new (taking answers.now) }
{
    if m.head.lpsys_hxt48_ready {
        return;
    }
    m.store(journal, register::LPSYS_HXT48_REQUEST, 1);
    waits::hxt48::wait_lpsys_hxt48(m, journal, answers);
}

pub fn hxt48_ready(m: &mut Machine, journal: &mut [u32], answers: &[u16])
    requires { Lent 4 m.old journal.old (taking answers.now) }
    ensures { Does 4 (hxt48_ready answers.now) m.old m.new journal.old journal.new (taking answers.now) }
{
    request_hxt48(m, journal, answers);
    request_lpsys_hxt48(m, journal, answers);
}
