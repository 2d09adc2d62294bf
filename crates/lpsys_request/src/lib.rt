// The LPSYS request on a running call: the divider, and the halves of the transition round it.
#![tactic(auto)]

pub mod frequency;
pub mod hdiv;
pub mod modes;
pub mod slow;

ghost use Rattle.std.specs.Prelude.{◌≤◌};
ghost use Rattle.journal.specs.Machine.{Lent, Does, none};
ghost use Rattle.lpsys_request.specs.Request.{request};

use journal::Machine;
use time::Megahertz;

pub fn request(m: &mut Machine, journal: &mut [u32], freq: Megahertz)
    requires lent { Lent 6 m.old journal.old none }
    requires le_freq { (1 ≤ freq.0) × (freq.0 ≤ 48) }
    ensures { Does 6 (request freq.0) m.old m.new journal.old journal.new none }
{
    let current = modes::present_mode(&m.head);
    let target = modes::request_mode(freq);
    let hdiv = modes::divider_for(freq, &m.head);
    dvfs_lpsys::config_lpsys_dvfs_first(m, journal, current, target);
    hdiv::set_hdiv(m, journal, hdiv);
    dvfs_lpsys::config_lpsys_dvfs_second(m, journal, current, target);
}
