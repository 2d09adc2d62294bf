// rcc/clock_config.rs, `init` on a running call.
#![tactic(auto)]

pub mod from_core;

ghost use Rattle.std.specs.Prelude.{◌≡◌, ◌≤◌, true};
ghost use Rattle.plan.specs.Plan.{legal};
ghost use Rattle.plan_clocks.specs.Clocks.{target_of};
ghost use Rattle.refusal.specs.Refusal.{number_or_zero};
ghost use Rattle.journal.specs.Run.{◌▸◌};
ghost use Rattle.journal.specs.Machine.{Lent, Does, taking};
ghost use Rattle.init_first.specs.First.{boot_stores, calibrating, Warned};
ghost use Rattle.clock_init.specs.Init.{boot, init};
ghost use Rattle.clock_init.specs.Told.{Told};

use journal::Machine;
use plan::Plan;
use plan_clocks::Target;
use refusal::Refusal;

#[tactic(auto, unfolding(crate::specs::Init::boot))]
fn boot(
    m: &mut Machine,
    journal: &mut [u32],
    answers: &[u16],
    p: Plan,
    target: Target,
) -> Option<Refusal>
    requires lent { Lent 91 m.old journal.old (taking answers.now) }
    requires p_value { (legal p ≡ true) × ((target ≡ target_of p) × (target.usb_div ≤ 7)) }
    ensures does { Does 91 (boot p answers.now) m.old m.new journal.old journal.new (taking answers.now) }
    ensures warned { Warned (boot_stores ▸ calibrating p answers.now) m.old journal.old (number_or_zero result) }
{
    let warning = init_first::init_first(m, journal, answers, p);
    from_core::init_clock(m, journal, answers, p, target);
    warning
}

const PM_STANDBY_BOOT: u8 = 3;

#[tactic(auto, unfolding(crate::specs::Init::init, crate::specs::Init::init_warning))]
pub fn init(
    m: &mut Machine,
    journal: &mut [u32],
    answers: &[u16],
    p: Plan,
    target: Target,
) -> Option<Refusal>
    requires lent { Lent 94 m.old journal.old (taking answers.now) }
    requires p_value { (legal p ≡ true) × ((target ≡ target_of p) × (target.usb_div ≤ 7)) }
    ensures does { Does 94 (init p answers.now) m.old m.new journal.old journal.new (taking answers.now) }
    ensures told { Told p answers.now m.old journal.old (number_or_zero result) }
{
    let boot_mode = m.head.boot_mode;
    init_first::begin::init_begin(m, journal, answers);
    if boot_mode == PM_STANDBY_BOOT {
        return None;
    }
    boot(m, journal, answers, p, target)
}
