// `calibrate_hrc48` of rcc/clock_config.rs: trims HRC48 until it counts as HXT48 does.
#![tactic(auto)]

pub mod measure;
pub mod search;

ghost use Rattle.journal.specs.Machine.{Lent, Does, taking};
ghost use Rattle.calibration.specs.Calibration.{calibrate as calibrating, calibrate_hrc48};

use journal::Machine;
use refusal::Refusal;

#[tactic(auto, using(crate::proofs::measure::Laws::settings_fit), unfolding(crate::specs::Calibration::calibrate))]
fn calibrate(m: &mut Machine, journal: &mut [u32], answers: &[u16])
    requires { Lent 57 m.old journal.old (taking answers.now) }
    ensures { Does 57 (calibrating answers.now) m.old m.new journal.old journal.new (taking answers.now) }
{
    m.store(journal, register::HRC_CALIBRATION_LENGTH, 0x3fff);
    m.store(journal, register::HRC_CLOCK_SELECT, register::word(0, 3, 3));
    search::run(m, journal, answers);
}

// The whole function: 31 without HXT48, before any store.
pub fn calibrate_hrc48(m: &mut Machine, journal: &mut [u32], answers: &[u16])
    requires { Lent 57 m.old journal.old (taking answers.now) }
    ensures { Does 57 (calibrate_hrc48 answers.now) m.old m.new journal.old journal.new (taking answers.now) }
{
    if m.head.hxt48_ready {
        calibrate(m, journal, answers);
    } else {
        m.refuse(Refusal::Hxt48NotReady);
    }
}

// The same in the unused rest of the journal, which calibration writes from its own zero.
pub fn calibrate_in_rest(m: &mut Machine, journal: &mut [u32], answers: &[u16])
    requires { Lent 57 m.old journal.old (taking answers.now) }
    ensures { Does 57 (calibrate_hrc48 answers.now) m.old m.new journal.old journal.new (taking answers.now) }
{
    let n = m.at;
    m.at = 0;
    calibrate_hrc48(m, &mut journal[n..], answers);
    m.at += n;
}
