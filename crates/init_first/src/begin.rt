// rcc/clock_config.rs, what `init` begins with on every boot: HXT48, the peripheral clock.
ghost use Rattle.journal.specs.Machine.{Lent, Does, taking};
ghost use Rattle.init_first.specs.begin.{start_hxt48, init_begin};

use journal::Machine;

#[tactic(auto, using(crate::proofs::Fits::flags_fit), unfolding(crate::specs::begin::start_hxt48))]
fn start_hxt48(m: &mut Machine, journal: &mut [u32], answers: &[u16])
    requires { Lent 2 m.old journal.old (taking answers.now) }
    ensures { Does 2 (start_hxt48 answers.now) m.old m.new journal.old journal.new (taking answers.now) }
{
    if m.head.regs[register::SYSCLK] != 1 {
        return;
    }
    m.store(journal, register::HXT48_REQUEST, 1);
    waits::hxt48::wait_hxt48(m, journal, answers);
}

#[tactic(auto, using(crate::proofs::Fits::flags_fit), unfolding(crate::specs::begin::init_begin))]
pub fn init_begin(m: &mut Machine, journal: &mut [u32], answers: &[u16])
    requires { Lent 3 m.old journal.old (taking answers.now) }
    ensures { Does 3 (init_begin answers.now) m.old m.new journal.old journal.new (taking answers.now) }
{
    start_hxt48(m, journal, answers);
    m.store(journal, register::PERI, 1);
}
