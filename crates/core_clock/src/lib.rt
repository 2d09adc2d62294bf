// rcc/clock_config.rs: the steps that set the core clock as a plan has it.
#![tactic(auto)]

pub mod dividers;
pub mod switch;

ghost use Rattle.std.specs.Prelude.{◌≡◌, true, ◌≤◌};
ghost use Rattle.plan.specs.Code.{stage_of};
ghost use Rattle.plan.specs.Plan.{legal};
ghost use Rattle.journal.specs.Machine.{Lent, Does, none, taking};
ghost use Rattle.core_clock.specs.CoreClock.{switch_away, planned_dll1, dividers_and_sysclk};

use clock::Dll;
use journal::Machine;
use plan::Plan;

const DLL1: u32 = 3;

#[tactic(auto, using(crate::proofs::dividers::Fits::select_fits), unfolding(crate::specs::CoreClock::switch_away))]
pub fn switch_away_from_dll1(m: &mut Machine, journal: &mut [u32])
    requires { Lent 1 m.old journal.old none }
    ensures { Does 1 switch_away m.old m.new journal.old journal.new none }
{
    if m.head.regs[register::SYSCLK] != DLL1 {
        return;
    }
    if m.head.hxt48_ready {
        m.store(journal, register::SYSCLK, 1);
    } else {
        m.store(journal, register::SYSCLK, 0);
    }
}

pub fn configure_dll1(m: &mut Machine, journal: &mut [u32], answers: &[u16], dll1: Option<Dll>)
    requires lent { Lent 6 m.old journal.old (taking answers.now) }
    requires dll1_bound { stage_of dll1 ≤ 15 }
    ensures { Does 6 (planned_dll1 dll1 answers.now) m.old m.new journal.old journal.new (taking answers.now) }
{
    if let Some(d) = dll1 {
        dll::configure_dll(m, journal, answers, register::DLL1, d);
    }
}

#[tactic(auto, using(crate::proofs::dividers::Fits::sys_fits), unfolding(crate::specs::CoreClock::dividers_and_sysclk))]
pub fn apply_dividers_and_sysclk(m: &mut Machine, journal: &mut [u32], p: Plan)
    requires lent { Lent 2 m.old journal.old none }
    requires p_value { legal p ≡ true }
    ensures { Does 2 (dividers_and_sysclk p) m.old m.new journal.old journal.new none }
{
    dividers::apply_dividers(m, journal, p);
    m.store(journal, register::SYSCLK, u32::from(p.sys));
}
