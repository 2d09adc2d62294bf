// rcc/clock_config.rs, `init`: USB and the other selects as a plan has them.
ghost use Rattle.std.specs.Prelude.{◌≡◌, true, ◌≤◌};
ghost use Rattle.plan.specs.Plan.{legal};
ghost use Rattle.plan_clocks.specs.Clocks.{usb_divider};
ghost use Rattle.journal.specs.Machine.{Lent, Does, none};
ghost use Rattle.init_rest.specs.selects.{planned_usb, planned_muxes};

use journal::Machine;
use plan::Plan;

#[tactic(auto, using(crate::proofs::Fits::usb_fits, crate::proofs::Fits::source_fits), unfolding(crate::specs::selects::planned_usb))]
pub fn configure_usb(m: &mut Machine, journal: &mut [u32], p: Plan, usb_div: u8)
    requires lent { Lent 2 m.old journal.old none }
    requires p_value { legal p ≡ true }
    requires usb_div_value { (usb_div ≡ usb_divider p) × (usb_div ≤ 7) }
    ensures { Does 2 (planned_usb p) m.old m.new journal.old journal.new none }
{
    if p.usb {
        m.store(journal, register::USB_DIVIDER, u32::from(usb_div));
        m.store(journal, register::USB_SOURCE, u32::from(p.usbsel));
    }
}

#[tactic(auto, using(register::proofs::Fits::zero_fits, crate::proofs::Fits::peri_fits, crate::proofs::Fits::wdt_fits), unfolding(crate::specs::selects::planned_muxes))]
pub fn configure_muxes(m: &mut Machine, journal: &mut [u32], p: Plan)
    requires lent { Lent 3 m.old journal.old none }
    requires p_value { legal p ≡ true }
    ensures { Does 3 (planned_muxes p) m.old m.new journal.old journal.new none }
{
    m.store(journal, register::PERI, u32::from(p.perisel));
    m.store(journal, register::LOW_POWER, u32::from(p.wdtsel));
    m.store(journal, register::TICK, 0);
}
