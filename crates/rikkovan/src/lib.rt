// What C calls, as include/rikkovan.h declares it.
#![tactic(auto)]

mod change;
mod config;
mod lpsys;
mod tasks;

ghost use Rattle.std.specs.Prelude.{◌≡◌, []};
ghost use Rattle.head.specs.Record.{head_refusal, head_of};
ghost use Rattle.readings.specs.Clocks.{clocks_of, lpsys_of, unless_refused};
ghost use Rattle.fit_reading.specs.Reading.{fit_of};
ghost use Rattle.verdict.specs.Verdict.{verdict, number_of};
ghost use Rattle.moment.specs.Moment.{moment};
ghost use Rattle.call.specs.word.{packed, Gives};

// 0 for an accepted plan, else its refusal number.
#[unsafe(no_mangle)]
pub extern "C" fn rikkovan_plan_check(bytes: &[u8]) -> u64
    ensures { result ≡ number_of (verdict bytes.now) }
{
    u64::from(refusal::number_of(verdict::planned::check(bytes)))
}

// The 15 frequencies of a head, 0 for none; on a refusal `clocks` stays.
#[unsafe(no_mangle)]
pub extern "C" fn rikkovan_read_clocks(head: &[u8], clocks: &mut [u32; 15]) -> u64
    ensures value { result ≡ packed (head_refusal head.now) 0 0 0 }
    ensures clocks_after { clocks.new ≡ unless_refused head.now (clocks_of (head_of head.now)) clocks.old }
{
    call::word::of_reading(readings::read_clocks(head, clocks))
}

// The six frequencies of LPSYS, 0 for none; on a refusal `lpsys` stays.
#[unsafe(no_mangle)]
pub extern "C" fn rikkovan_read_lpsys(head: &[u8], lpsys: &mut [u32; 6]) -> u64
    ensures value { result ≡ packed (head_refusal head.now) 0 0 0 }
    ensures lpsys_after { lpsys.new ≡ unless_refused head.now (lpsys_of (head_of head.now)) lpsys.old }
{
    call::word::of_reading(readings::read_lpsys(head, lpsys))
}

// The rail limit, the load, and the first clause of a fit head that does not hold, 0 for none; on a refusal `fit` stays.
#[unsafe(no_mangle)]
pub extern "C" fn rikkovan_read_fit(head: &[u8], fit: &mut [u64; 3]) -> u64
    ensures value { result ≡ packed (head_refusal head.now) 0 0 0 }
    ensures fit_after { fit.new ≡ unless_refused head.now (fit_of (head_of head.now)) fit.old }
{
    call::word::of_reading(fit_reading::read_fit(head, fit))
}

// Puts the stores of entries into a head.
#[unsafe(no_mangle)]
pub extern "C" fn rikkovan_moment(head: &mut [u8], entries: &[u32]) -> u64
    ensures { Gives (moment entries.now head.old) result head.new [] }
{
    call::word::of_answer(moment::put(head, entries))
}
