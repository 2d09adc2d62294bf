// The search of `calibrate_hrc48` of rcc/clock_config.rs for the trim at which HRC48 counts as HXT48 does.
ghost use Rattle.std.specs.Prelude.{◌≡◌, ◌+◌, ◌≤◌};
ghost use Rattle.journal.specs.Machine.{Lent, Does, taking};
ghost use Rattle.calibration.specs.search.{next_trim, search};

use journal::Machine;

// The trim for the next measurement, if there is one.
#[tactic(auto, unfolding(crate::specs::search::next_trim))]
fn next_trim(trim: u16, step: u16, hxt: u16, hrc: u16) -> u16
    requires { (step ≤ trim) × (trim + step ≤ 1023) }
    ensures { result ≡ next_trim trim step hxt hrc }
{
    if hxt > hrc {
        return trim + step;
    }
    trim - step
}

// Binary search for the trim: eleven measurements at most, fewer where the counts come close.
pub fn run(m: &mut Machine, journal: &mut [u32], answers: &[u16])
    requires { Lent 55 m.old journal.old (taking answers.now) }
    ensures { Does 55 (search 11 512 256 0 answers.now) m.old m.new journal.old journal.new (taking answers.now) }
{
    let mut ct_val: u16 = 0x200;
    let mut step_unit: u16 = 0x100;
    let mut cnt_diff: u16 = 0;
    for _ in 0u8..11 {
        crate::measure::measurement(m, journal, answers, ct_val);
        if m.stop.is_some() {
            return;
        }
        let hxt_cnt = answers[m.taken - 2];
        let hrc_cnt = answers[m.taken - 1];
        ct_val = next_trim(ct_val, step_unit, hxt_cnt, hrc_cnt);
        cnt_diff = crate::measure::difference(hxt_cnt, hrc_cnt);
        if cnt_diff < 64 {
            crate::measure::judged(m, cnt_diff);
            return;
        }
        step_unit >>= 1;
    }
    crate::measure::judged(m, cnt_diff);
}
