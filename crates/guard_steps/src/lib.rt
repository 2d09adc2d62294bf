// The steps of the guarded change that move the flash selects and the core's.
#![tactic(auto)]

pub mod flash;
pub mod peak;
pub mod supply;

ghost use Rattle.std.specs.Prelude.{◌≡◌, true};
ghost use Rattle.plan.specs.Plan.{legal};
ghost use Rattle.register.specs.Codes.{fits_register};
ghost use Rattle.journal.specs.Machine.{Lent, Does, none};
ghost use Rattle.guard_steps.specs.Steps.{leave_dll1, to_hxt48, to_planned, back_to};
ghost use Rattle.register.specs.Numbers.{FLASH};

use journal::Machine;
use plan::Plan;

const HXT48: u32 = 1;

// Step 2: flash selects on DLL1 go to Peri.
#[tactic(auto, unfolding(crate::specs::Steps::leave_dll1))]
pub fn leave_dll1(m: &mut Machine, journal: &mut [u32])
    requires { Lent 1 m.old journal.old none }
    ensures { Does 1 leave_dll1 m.old m.new journal.old journal.new none }
{
    let old = m.head.regs[register::FLASH];
    if flash::is_on_dll1(old) {
        m.store(journal, register::FLASH, flash::moved(old));
    }
}

// Step 3: the core goes to HXT48.
#[tactic(auto, using(core_clock::proofs::dividers::Fits::select_fits), unfolding(crate::specs::Steps::to_hxt48))]
pub fn to_hxt48(m: &mut Machine, journal: &mut [u32])
    requires { Lent 1 m.old journal.old none }
    ensures { Does 1 to_hxt48 m.old m.new journal.old journal.new none }
{
    if m.head.regs[register::SYSCLK] != HXT48 {
        m.store(journal, register::SYSCLK, HXT48);
    }
}

// Step 6: the core goes to the plan's select.
#[tactic(auto, using(core_clock::proofs::dividers::Fits::sys_fits), unfolding(crate::specs::Steps::to_planned))]
pub fn to_planned(m: &mut Machine, journal: &mut [u32], p: Plan)
    requires lent { Lent 1 m.old journal.old none }
    requires p_value { legal p ≡ true }
    ensures { Does 1 (to_planned p) m.old m.new journal.old journal.new none }
{
    m.store(journal, register::SYSCLK, u32::from(p.sys));
}

// Step 7: flash selects that were on DLL1 go back to what they were.
#[tactic(auto, unfolding(crate::specs::Steps::back_to))]
pub fn back_to(m: &mut Machine, journal: &mut [u32], selects: u32)
    requires lent { Lent 1 m.old journal.old none }
    requires selects_value { fits_register FLASH selects ≡ true }
    ensures { Does 1 (back_to selects) m.old m.new journal.old journal.new none }
{
    if flash::is_on_dll1(selects) {
        m.store(journal, register::FLASH, selects);
    }
}
