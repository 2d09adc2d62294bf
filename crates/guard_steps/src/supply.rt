// The supply in the guarded change: the volts raised before the clock and settled after it.
ghost use Rattle.journal.specs.Machine.{Lent, Does, none};
ghost use Rattle.journal.specs.Run.{store, ◌▸◌};
ghost use Rattle.dvfs_hpsys.specs.volts.{sx_mode_volt, timing};
ghost use Rattle.guard_steps.specs.supply.{raise, target_rails};
ghost use Rattle.register.specs.Numbers.{HPSYS_SUPPLY};

use dvfs::HpsysDvfsMode;
use journal::Machine;

// Step 1: the volts of the peak, where the rail limit is below it.
#[tactic(auto, unfolding(crate::specs::supply::raise))]
pub fn raise(m: &mut Machine, journal: &mut [u32], peak: HpsysDvfsMode)
    requires { Lent 5 m.old journal.old none }
    ensures { Does 5 (raise peak) m.old m.new journal.old journal.new none }
{
    let rail = fit::rail::rail_limit(&m.head);
    if fit::rail::limit(peak).0 <= rail.0 {
        return;
    }
    if peak < HpsysDvfsMode::S0 {
        dvfs_hpsys::switch::switch_hcpu_dvfs_s2d_first(m, journal, peak);
        journal::delay_us(m, journal, 250);
        return;
    }
    dvfs_hpsys::switch::switch_hcpu_dvfs_d2s_first(m, journal, peak);
}

#[tactic(auto, using(dvfs_hpsys::proofs::volts::Rows::supply_fits))]
fn settle_s(m: &mut Machine, journal: &mut [u32], mode: HpsysDvfsMode)
    requires { Lent 4 m.old journal.old none }
    ensures { Does 4 (sx_mode_volt mode ▸ timing mode ▸ store HPSYS_SUPPLY 0) m.old m.new journal.old journal.new none }
{
    dvfs_hpsys::volts::config_hcpu_sx_mode_volt(m, journal, mode);
    dvfs_hpsys::volts::store_timing(m, journal, mode);
    m.store(journal, register::HPSYS_SUPPLY, 0);
}

// Step 8: the volts, the timing and the supply of the target's mode.
pub fn target_rails(m: &mut Machine, journal: &mut [u32], mode: HpsysDvfsMode)
    requires { Lent 4 m.old journal.old none }
    ensures { Does 4 (target_rails mode) m.old m.new journal.old journal.new none }
{
    if mode < HpsysDvfsMode::S0 {
        dvfs_hpsys::switch::switch_hcpu_dvfs_s2d_first(m, journal, mode);
        dvfs_hpsys::switch::switch_hcpu_dvfs_s2d_second(m, journal, mode);
        return;
    }
    settle_s(m, journal, mode);
}
