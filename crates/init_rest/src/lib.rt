// rcc/clock_config.rs, `init` after the core clock: DLL2, then USB and the other selects.
#![tactic(auto)]

pub mod flash;
pub mod selects;

ghost use Rattle.std.specs.Prelude.{◌≡◌, true, ◌≤◌};
ghost use Rattle.plan.specs.Code.{stage_of};
ghost use Rattle.plan.specs.Plan.{legal};
ghost use Rattle.plan_clocks.specs.Clocks.{usb_divider};
ghost use Rattle.register.specs.Numbers.{FLASH};
ghost use Rattle.register.specs.Codes.{fits_register};
ghost use Rattle.journal.specs.Machine.{Lent, Does, taking};
ghost use Rattle.init_rest.specs.Rest.{is_set, move_dll2, set_dll2, planned_dll2, init_rest};

use clock::Dll;
use journal::Machine;
use plan::Plan;

#[tactic(auto, unfolding(crate::specs::Rest::is_set))]
fn is_set(d: Dll, word: u32) -> bool
    ensures { result ≡ is_set d word }
{
    register::a(word) == 1
        && register::c(word) == u32::from(d.stage)
        && register::b(word) == u32::from(d.half)
}

// The flash selects leave DLL2 while it is set anew.
#[tactic(auto, using(register::proofs::Fits::zero_fits), unfolding(crate::specs::Rest::move_dll2))]
fn move_dll2(m: &mut Machine, journal: &mut [u32], answers: &[u16], d: Dll, back: u32)
    requires lent { Lent 8 m.old journal.old (taking answers.now) }
    requires stage_bound { (d.stage ≤ 15) × (fits_register FLASH back ≡ true) }
    ensures { Does 8 (move_dll2 d back answers.now) m.old m.new journal.old journal.new (taking answers.now) }
{
    m.store(journal, register::FLASH, 0);
    dll::configure_dll(m, journal, answers, register::DLL2, d);
    m.store(journal, register::FLASH, back);
}

#[tactic(auto, unfolding(crate::specs::Rest::set_dll2))]
fn set_dll2(m: &mut Machine, journal: &mut [u32], answers: &[u16], d: Dll)
    requires lent { Lent 8 m.old journal.old (taking answers.now) }
    requires stage_bound { d.stage ≤ 15 }
    ensures { Does 8 (set_dll2 d answers.now) m.old m.new journal.old journal.new (taking answers.now) }
{
    if is_set(d, m.head.regs[register::DLL2]) {
        return;
    }
    let back = flash::flash_back(m.head.regs[register::FLASH]);
    move_dll2(m, journal, answers, d, back);
}

fn configure_dll2(m: &mut Machine, journal: &mut [u32], answers: &[u16], dll2: Option<Dll>)
    requires lent { Lent 8 m.old journal.old (taking answers.now) }
    requires dll2_bound { stage_of dll2 ≤ 15 }
    ensures { Does 8 (planned_dll2 dll2 answers.now) m.old m.new journal.old journal.new (taking answers.now) }
{
    if let Some(d) = dll2 {
        set_dll2(m, journal, answers, d);
    }
}

#[tactic(auto, unfolding(crate::specs::Rest::init_rest))]
pub fn init_rest(m: &mut Machine, journal: &mut [u32], answers: &[u16], p: Plan, usb_div: u8)
    requires lent { Lent 13 m.old journal.old (taking answers.now) }
    requires p_value { (legal p ≡ true) × ((usb_div ≡ usb_divider p) × (usb_div ≤ 7)) }
    ensures { Does 13 (init_rest p answers.now) m.old m.new journal.old journal.new (taking answers.now) }
{
    configure_dll2(m, journal, answers, p.dll2);
    selects::configure_usb(m, journal, p, usb_div);
    selects::configure_muxes(m, journal, p);
}
