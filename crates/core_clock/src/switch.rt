// rcc/clock_config.rs: the core clock set as a plan has it, between the halves of a supply transition.
ghost use Rattle.std.specs.Prelude.{◌≡◌, true, Some};
ghost use Rattle.plan.specs.Plan.{legal};
ghost use Rattle.plan_clocks.specs.Clocks.{hclk_hz};
ghost use Rattle.journal.specs.Machine.{Lent, Does, none, taking};
ghost use Rattle.core_clock.specs.switch.{config_clock, transition, to_plan};

use dvfs::HpsysDvfsMode;
use journal::Machine;
use plan::Plan;
use refusal::Refusal;
use time::Hertz;

// What the source passes to the supply transition as a closure.
#[tactic(auto, using(plan::proofs::Legal::legal_stages), unfolding(crate::specs::switch::config_clock))]
fn config_clock(m: &mut Machine, journal: &mut [u32], answers: &[u16], p: Plan)
    requires lent { Lent 9 m.old journal.old (taking answers.now) }
    requires p_value { legal p ≡ true }
    ensures { Does 9 (config_clock p answers.now) m.old m.new journal.old journal.new (taking answers.now) }
{
    crate::switch_away_from_dll1(m, journal);
    crate::configure_dll1(m, journal, answers, p.dll1);
    crate::apply_dividers_and_sysclk(m, journal, p);
}

// The two halves of the supply transition around it.
fn config_in_modes(
    m: &mut Machine,
    journal: &mut [u32],
    answers: &[u16],
    p: Plan,
    current: HpsysDvfsMode,
    target: HpsysDvfsMode,
)
    requires lent { Lent 16 m.old journal.old (taking answers.now) }
    requires p_value { legal p ≡ true }
    ensures { Does 16 (transition (Some current) (Some target) p answers.now) m.old m.new journal.old journal.new (taking answers.now) }
{
    dvfs_hpsys::config_hcpu_dvfs_first(m, journal, current, target);
    config_clock(m, journal, answers, p);
    dvfs_hpsys::config_hcpu_dvfs_second(m, journal, current, target);
}

// `config_hcpu_dvfs`, from the present HCLK, 48 MHz where none reads, to the plan's.
#[tactic(auto, unfolding(crate::specs::switch::to_plan))]
pub fn config_hcpu_dvfs(
    m: &mut Machine,
    journal: &mut [u32],
    answers: &[u16],
    p: Plan,
    target_hclk: Hertz,
)
    requires lent { Lent 16 m.old journal.old (taking answers.now) }
    requires p_value { (legal p ≡ true) × (target_hclk.0 ≡ hclk_hz p) }
    ensures { Does 16 (to_plan p answers.now) m.old m.new journal.old journal.new (taking answers.now) }
{
    let current_hclk = clock_read::get_hclk_freq(&m.head).unwrap_or(clock::CLK_HXT48_FREQ);
    let current = HpsysDvfsMode::from_hertz(current_hclk);
    let target = HpsysDvfsMode::from_hertz(target_hclk);
    let (Some(current), Some(target)) = (current, target) else {
        m.refuse(Refusal::PresentHclk);
        return;
    };
    config_in_modes(m, journal, answers, p, current, target);
}
