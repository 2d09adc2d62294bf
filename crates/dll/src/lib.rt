// rcc/clock_config.rs, `configure_dll1`: a DLL set anew, DLL1 or DLL2 by the number of its register.
#![tactic(auto)]

pub mod words;

ghost use Rattle.std.specs.Prelude.{◌≤◌};
ghost use Rattle.journal.specs.Machine.{Lent, Does, none, taking};
ghost use Rattle.dll.specs.Dll.{hpbg_on, vddpsw_on, relocked, set_dll, configure_dll};

use clock::Dll;
use journal::Machine;

#[tactic(auto, using(crate::proofs::Fits::hpbg_fits), unfolding(crate::specs::Dll::hpbg_on))]
fn enable_hpbg(m: &mut Machine, journal: &mut [u32])
    requires { Lent 1 m.old journal.old none }
    ensures { Does 1 hpbg_on m.old m.new journal.old journal.new none }
{
    let old = m.head.regs[register::HPBG];
    if register::b(old) == 0 {
        let word = register::word(0, 1, register::c(old));
        m.store(journal, register::HPBG, word);
    }
}

#[tactic(auto, using(crate::proofs::Fits::vddpsw_fits), unfolding(crate::specs::Dll::vddpsw_on))]
fn enable_vddpsw(m: &mut Machine, journal: &mut [u32])
    requires { Lent 1 m.old journal.old none }
    ensures { Does 1 vddpsw_on m.old m.new journal.old journal.new none }
{
    let old = m.head.regs[register::HPBG];
    if register::c(old) == 0 {
        let word = register::word(0, register::b(old), 1);
        m.store(journal, register::HPBG, word);
    }
}

// Off, then on with its new setting.
#[tactic(auto, unfolding(crate::specs::Dll::relocked, crate::specs::Dll::dll_off, crate::specs::Dll::dll_on))]
fn relock(m: &mut Machine, journal: &mut [u32], number: usize, d: Dll)
    requires lent { Lent 2 m.old journal.old none }
    requires le_number { (3 ≤ number) × (number ≤ 4) }
    requires stage_bound { d.stage ≤ 15 }
    ensures { Does 2 (relocked number d) m.old m.new journal.old journal.new none }
{
    let off = words::off_word(&m.head, number);
    m.store(journal, number, off);
    m.store(journal, number, words::on_word(d, number));
}

// The bandgap on, and the DLL set.
#[tactic(auto, unfolding(crate::specs::Dll::set_dll))]
fn set_dll(m: &mut Machine, journal: &mut [u32], number: usize, d: Dll)
    requires lent { Lent 4 m.old journal.old none }
    requires le_number { (3 ≤ number) × (number ≤ 4) }
    requires stage_bound { d.stage ≤ 15 }
    ensures { Does 4 (set_dll number d) m.old m.new journal.old journal.new none }
{
    enable_hpbg(m, journal);
    enable_vddpsw(m, journal);
    relock(m, journal, number, d);
}

#[tactic(auto, unfolding(crate::specs::Dll::configure_dll))]
pub fn configure_dll(m: &mut Machine, journal: &mut [u32], answers: &[u16], number: usize, d: Dll)
    requires lent { Lent 6 m.old journal.old (taking answers.now) }
    requires le_number { (3 ≤ number) × (number ≤ 4) }
    requires stage_bound { d.stage ≤ 15 }
    ensures { Does 6 (configure_dll number d answers.now) m.old m.new journal.old journal.new (taking answers.now) }
{
    set_dll(m, journal, number, d);
    journal::delay_us(m, journal, 10);
    waits::wait_for(m, journal, answers, number as u32);
}
