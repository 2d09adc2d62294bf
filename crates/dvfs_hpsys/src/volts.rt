// pmu/dvfs.rs: the stores of the volts and the timing of a HPSYS mode.
ghost use Rattle.std.specs.Prelude.{◌≡◌};
ghost use Rattle.journal.specs.Machine.{Lent, Does, none};
ghost use Rattle.dvfs_hpsys.specs.volts.{vref_of, sx_mode_volt, timing};

use dvfs::HpsysDvfsMode;
use journal::Machine;

// The ldo of a D mode, an offset on the reference of 1.1 V.
#[tactic(auto, unfolding(crate::specs::volts::vref_of))]
pub fn vref(target: HpsysDvfsMode) -> u32
    ensures { result ≡ vref_of target }
{
    (11 + target.get_config().ldo_offset) as u32
}

#[tactic(auto, using(crate::proofs::volts::Rows::buck_fits, crate::proofs::volts::Rows::ldo_fits), unfolding(crate::specs::volts::sx_mode_volt))]
pub fn config_hcpu_sx_mode_volt(m: &mut Machine, journal: &mut [u32], target: HpsysDvfsMode)
    requires { Lent 2 m.old journal.old none }
    ensures { Does 2 (sx_mode_volt target) m.old m.new journal.old journal.new none }
{
    let row = target.get_config();
    m.store(journal, register::BUCK_VOUT, u32::from(row.buck));
    m.store(journal, register::HPSYS_VOUT, u32::from(row.ldo));
}

#[tactic(auto, using(crate::proofs::volts::Rows::timing_fits), unfolding(crate::specs::volts::timing))]
pub fn store_timing(m: &mut Machine, journal: &mut [u32], target: HpsysDvfsMode)
    requires { Lent 1 m.old journal.old none }
    ensures { Does 1 (timing target) m.old m.new journal.old journal.new none }
{
    m.store(journal, register::HPSYS_TIMING, target.get_config().ulpmcr);
}
