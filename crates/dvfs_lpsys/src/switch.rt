// pmu/dvfs.rs: the halves of each supply transition of LPSYS, before and after the clock is set.
#![tactic(auto, unfolding(record::specs::Bytes::is_within, register::specs::Word::word_bytes, register::specs::Codes::fits_register, register::specs::Codes::largest))]

ghost use Rattle.journal.specs.Machine.{Lent, Does, none};
ghost use Rattle.dvfs_lpsys.specs.switch.{lpsys_d2s_first, lpsys_s2d_first, lpsys_s2d_second};

use dvfs::lpsys::LpsysDvfsMode;
use journal::Machine;

// The volts and the supply of S, before the clock rises.
pub fn switch_lpsys_dvfs_d2s_first(m: &mut Machine, journal: &mut [u32])
    requires { Lent 3 m.old journal.old none }
    ensures { Does 3 lpsys_d2s_first m.old m.new journal.old journal.new none }
{
    let row = LpsysDvfsMode::S.get_config();
    m.store(journal, register::LPSYS_VOUT, u32::from(row.ldo));
    m.store(journal, register::LPSYS_SUPPLY, 1);
    journal::delay_us(m, journal, 250);
}

// The volts of D, before the clock falls.
pub fn switch_lpsys_dvfs_s2d_first(m: &mut Machine, journal: &mut [u32])
    requires { Lent 1 m.old journal.old none }
    ensures { Does 1 lpsys_s2d_first m.old m.new journal.old journal.new none }
{
    let config = LpsysDvfsMode::D.get_config();
    m.store(journal, register::LPSYS_LDO, u32::from(config.ldo));
}

// The timing and the supply of D, after the clock has fallen.
pub fn switch_lpsys_dvfs_s2d_second(m: &mut Machine, journal: &mut [u32])
    requires { Lent 2 m.old journal.old none }
    ensures { Does 2 lpsys_s2d_second m.old m.new journal.old journal.new none }
{
    let row = LpsysDvfsMode::D.get_config();
    m.store(journal, register::LPSYS_TIMING, row.ulpmcr);
    m.store(journal, register::LPSYS_SUPPLY, 0);
}
