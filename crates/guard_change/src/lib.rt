// The guarded change on a running call: the peak of its supply, then its two halves.
#![tactic(auto)]

ghost use Rattle.std.specs.Prelude.{◌≡◌, true};
ghost use Rattle.plan.specs.Plan.{legal};
ghost use Rattle.plan_clocks.specs.Clocks.{hclk_hz};
ghost use Rattle.register.specs.Codes.{fits_register};
ghost use Rattle.register.specs.Numbers.{FLASH};
ghost use Rattle.journal.specs.Machine.{Lent, Does, none, taking};
ghost use Rattle.guard_change.specs.Change.{steps1to4, steps5to8, steps, change};

use dvfs::HpsysDvfsMode;
use journal::Machine;
use plan::Plan;
use time::Hertz;

// Steps 1 to 4: the volts of the peak, flash and core away from DLL1, DLL1 as planned.
#[tactic(auto, using(plan::proofs::Legal::legal_stages))]
fn steps1to4(m: &mut Machine, journal: &mut [u32], answers: &[u16], p: Plan, peak: HpsysDvfsMode)
    requires lent { Lent 13 m.old journal.old (taking answers.now) }
    requires p_value { legal p ≡ true }
    ensures { Does 13 (steps1to4 peak p answers.now) m.old m.new journal.old journal.new (taking answers.now) }
{
    guard_steps::supply::raise(m, journal, peak);
    guard_steps::leave_dll1(m, journal);
    guard_steps::to_hxt48(m, journal);
    core_clock::configure_dll1(m, journal, answers, p.dll1);
}

// Steps 5 to 8: dividers, the plan's select, flash as it was, the volts of the target.
fn steps5to8(m: &mut Machine, journal: &mut [u32], p: Plan, selects: u32, target: Hertz)
    requires lent { Lent 7 m.old journal.old none }
    requires p_value { legal p ≡ true }
    requires selects_value { (fits_register FLASH selects ≡ true) × (target.0 ≡ hclk_hz p) }
    ensures { Does 7 (steps5to8 selects p) m.old m.new journal.old journal.new none }
{
    let mode = guard_steps::peak::mode_at(target);
    core_clock::dividers::apply_dividers(m, journal, p);
    guard_steps::to_planned(m, journal, p);
    guard_steps::back_to(m, journal, selects);
    guard_steps::supply::target_rails(m, journal, mode);
}

// All steps, one half after the other.
fn steps(
    m: &mut Machine,
    journal: &mut [u32],
    answers: &[u16],
    p: Plan,
    peak: HpsysDvfsMode,
    selects: u32,
    target: Hertz,
)
    requires lent { Lent 20 m.old journal.old (taking answers.now) }
    requires p_value { legal p ≡ true }
    requires selects_value { (fits_register FLASH selects ≡ true) × (target.0 ≡ hclk_hz p) }
    ensures { Does 20 (steps peak selects p answers.now) m.old m.new journal.old journal.new (taking answers.now) }
{
    steps1to4(m, journal, answers, p, peak);
    steps5to8(m, journal, p, selects, target);
}

// The guarded change to a plan, whose HCLK is `target`.
#[tactic(auto, unfolding(crate::specs::Change::change))]
pub fn change(m: &mut Machine, journal: &mut [u32], answers: &[u16], p: Plan, target: Hertz)
    requires lent { Lent 20 m.old journal.old (taking answers.now) }
    requires p_value { (legal p ≡ true) × (target.0 ≡ hclk_hz p) }
    ensures { Does 20 (change p answers.now) m.old m.new journal.old journal.new (taking answers.now) }
{
    let selects = m.head.regs[register::FLASH];
    let present = clock_read::get_hclk_freq(&m.head).unwrap_or(Hertz(0));
    let peak = guard_steps::peak::of(present, target);
    steps(m, journal, answers, p, peak, selects, target);
}
