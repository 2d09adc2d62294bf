// The divider of LPSYS HCLK on a running call.
ghost use Rattle.journal.specs.Machine.{Lent, Does, none};
ghost use Rattle.lpsys_request.specs.hdiv.{set_hdiv};

use journal::Machine;

#[tactic(auto, using(crate::proofs::hdiv::Fits::hdiv_fits))]
pub fn set_hdiv(m: &mut Machine, journal: &mut [u32], hdiv: u8)
    requires { Lent 1 m.old journal.old none }
    ensures { Does 1 (set_hdiv hdiv) m.old m.new journal.old journal.new none }
{
    let old = m.head.regs[register::LPSYS_CFGR];
    let word = register::word(u32::from(hdiv), register::b(old), register::c(old));
    m.store(journal, register::LPSYS_CFGR, word);
}
