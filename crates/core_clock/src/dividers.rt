// rcc/clock_config.rs: the dividers of the core and its buses, stored as a plan has them.
ghost use Rattle.std.specs.Prelude.{◌≡◌, true};
ghost use Rattle.plan.specs.Plan.{legal};
ghost use Rattle.register.specs.Word.{word_of};
ghost use Rattle.register.specs.Codes.{fits_register};
ghost use Rattle.journal.specs.Machine.{Lent, Does, none};
ghost use Rattle.core_clock.specs.dividers.{dividers};
ghost use Rattle.register.specs.Numbers.{HPSYS_CFGR};

use journal::Machine;
use plan::Plan;

#[tactic(auto, using(crate::proofs::dividers::Fits::dividers_fit))]
fn dividers_word(p: Plan) -> u32
    requires { legal p ≡ true }
    ensures { (result ≡ word_of p.hdiv p.pdiv1 p.pdiv2) × (fits_register HPSYS_CFGR result ≡ true) }
{
    register::word(u32::from(p.hdiv), u32::from(p.pdiv1), u32::from(p.pdiv2))
}

#[tactic(auto, unfolding(crate::specs::dividers::dividers))]
pub fn apply_dividers(m: &mut Machine, journal: &mut [u32], p: Plan)
    requires lent { Lent 1 m.old journal.old none }
    requires p_value { legal p ≡ true }
    ensures { Does 1 (dividers p) m.old m.new journal.old journal.new none }
{
    m.store(journal, register::HPSYS_CFGR, dividers_word(p));
}
