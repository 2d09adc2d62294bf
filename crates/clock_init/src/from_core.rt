// rcc/clock_config.rs, `init` from the core clock on.
ghost use Rattle.std.specs.Prelude.{◌≡◌, ◌≤◌, true};
ghost use Rattle.plan.specs.Plan.{legal};
ghost use Rattle.plan_clocks.specs.Clocks.{target_of};
ghost use Rattle.journal.specs.Machine.{Lent, Does, taking};
ghost use Rattle.clock_init.specs.from_core.{init_clock};

use journal::Machine;
use plan::Plan;
use plan_clocks::Target;

#[tactic(auto, unfolding(plan_clocks::specs::Clocks::target_of, crate::specs::from_core::init_clock))]
pub fn init_clock(m: &mut Machine, journal: &mut [u32], answers: &[u16], p: Plan, target: Target)
    requires lent { Lent 30 m.old journal.old (taking answers.now) }
    requires p_value { (legal p ≡ true) × ((target ≡ target_of p) × (target.usb_div ≤ 7)) }
    ensures { Does 30 (init_clock p answers.now) m.old m.new journal.old journal.new (taking answers.now) }
{
    core_clock::dividers::apply_dividers(m, journal, p);
    core_clock::switch::config_hcpu_dvfs(m, journal, answers, p, target.hclk);
    init_rest::init_rest(m, journal, answers, p, target.usb_div);
}
