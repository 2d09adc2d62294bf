// rcc/clock_config.rs, `init` before the core clock, on all but a standby boot: the low-power clocks, calibration.
#![tactic(auto)]

pub mod begin;
pub mod warning;

ghost use Rattle.refusal.specs.Refusal.{number_or_zero};
ghost use Rattle.journal.specs.Run.{◌▸◌};
ghost use Rattle.journal.specs.Machine.{Lent, Does, none, taking};
ghost use Rattle.init_first.specs.First.{boot_stores, leave_hrc48, calibrating, init_first, Warned};

use journal::Machine;
use plan::Plan;
use refusal::Refusal;

#[tactic(auto, using(crate::proofs::Fits::flags_fit), unfolding(crate::specs::First::boot_stores))]
fn boot_stores(m: &mut Machine, journal: &mut [u32])
    requires { Lent 3 m.old journal.old none }
    ensures { Does 3 boot_stores m.old m.new journal.old journal.new none }
{
    m.store(journal, register::LRC32_ON, 1);
    m.store(journal, register::LOW_POWER, 1);
    m.store(journal, register::DLL_BUFFER_ON, 1);
}

#[tactic(auto, using(crate::proofs::Fits::flags_fit), unfolding(crate::specs::First::leave_hrc48))]
fn leave_hrc48(m: &mut Machine, journal: &mut [u32])
    requires { Lent 1 m.old journal.old none }
    ensures { Does 1 leave_hrc48 m.old m.new journal.old journal.new none }
{
    if m.head.regs[register::SYSCLK] != 0 {
        return;
    }
    if m.head.hxt48_ready {
        m.store(journal, register::SYSCLK, 1);
        return;
    }
    m.refuse(Refusal::OnHrc48);
}

#[tactic(auto, unfolding(crate::specs::First::calibrating))]
fn calibrate(m: &mut Machine, journal: &mut [u32], answers: &[u16], p: Plan)
    requires { Lent 58 m.old journal.old (taking answers.now) }
    ensures { Does 58 (calibrating p answers.now) m.old m.new journal.old journal.new (taking answers.now) }
{
    if p.hrc48_calibrate {
        leave_hrc48(m, journal);
        calibration::calibrate_in_rest(m, journal, answers);
    }
}

pub fn init_first(m: &mut Machine, journal: &mut [u32], answers: &[u16], p: Plan) -> Option<Refusal>
    requires { Lent 61 m.old journal.old (taking answers.now) }
    ensures does { Does 61 (init_first p answers.now) m.old m.new journal.old journal.new (taking answers.now) }
    ensures warned { Warned (boot_stores ▸ calibrating p answers.now) m.old journal.old (number_or_zero result) }
{
    boot_stores(m, journal);
    calibrate(m, journal, answers, p);
    warning::swallow(m)
}
