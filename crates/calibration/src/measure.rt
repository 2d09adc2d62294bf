// One measurement of `calibrate_hrc48` of rcc/clock_config.rs, its difference, and the verdict on the last.
ghost use Rattle.std.specs.Prelude.{◌≡◌, ◌≤◌, None};
ghost use Rattle.head.specs.Encodable.{Encodable};
ghost use Rattle.journal.specs.Machine.{Lent, Does, DoesWithoutJournal, taking};
ghost use Rattle.calibration.specs.measure.{measurement as measurement_at, difference as difference_of, judged_difference as judged_by};

use journal::Machine;
use refusal::Refusal;

// One measurement at a trim; the two answers taken last are hxt_cnt and hrc_cnt.
#[tactic(auto, using(crate::proofs::measure::Laws::trim_fits, crate::proofs::measure::Laws::settings_fit), unfolding(crate::specs::measure::measurement))]
pub fn measurement(m: &mut Machine, journal: &mut [u32], answers: &[u16], trim: u16)
    requires lent { Lent 5 m.old journal.old (taking answers.now) }
    requires trim_bound { trim ≤ 1023 }
    ensures does { Does 5 (measurement_at trim answers.now) m.old m.new journal.old journal.new (taking answers.now) }
    ensures le_taken { m.new.stop ≡ None → 2 ≤ m.new.taken }
{
    m.store(journal, register::HRC_TRIM, u32::from(trim));
    journal::delay_us(m, journal, 3);
    m.store(journal, register::HRC_CALIBRATION_ON, 1);
    waits::measure(m, journal, answers);
    m.store(journal, register::HRC_CALIBRATION_ON, 0);
}

// How far the counts are apart.
#[tactic(auto, unfolding(crate::specs::measure::difference))]
pub fn difference(hxt: u16, hrc: u16) -> u16
    ensures { result ≡ difference_of hxt hrc }
{
    hxt.abs_diff(hrc)
}

// 33 where the final difference is above 160.
#[tactic(auto, unfolding(crate::specs::measure::judged_difference))]
pub fn judged(m: &mut Machine, diff: u16)
    requires { Encodable m.old.head }
    ensures { DoesWithoutJournal (judged_by diff) m.old m.new }
{
    if 160 < diff {
        m.refuse(Refusal::Difference);
    }
}
