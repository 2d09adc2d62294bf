// A running call: stores and delays on its head, each writing its entry into the lent journal.
#![tactic(auto)]

ghost use Rattle.std.specs.Prelude.{◌≡◌, true, ◌<◌, ◌≤◌};
ghost use Rattle.refusal.specs.Refusal.{number};
ghost use Rattle.register.specs.Codes.{fits_register};
ghost use Rattle.head.specs.Encodable.{Encodable};
ghost use Rattle.journal.specs.Run.{cycles as cycles_of, unless_ended, with_entry, halted, store, delay};
ghost use Rattle.journal.specs.Machine.{Lent, Does, DoesWithoutJournal, none};

use head::Head;
use refusal::Refusal;
use time::Hertz;

#[derive(Clone, Copy)]
pub struct Machine {
    pub head: Head,
    // The entries written.
    pub at: usize,
    // The answers taken.
    pub taken: usize,
    // The refusal that ended the call: nothing more is stored then.
    pub stop: Option<Refusal>,
}

impl Machine {
    pub fn store(&mut self, journal: &mut [u32], number: usize, value: u32)
        requires lent { Lent 1 self.old journal.old none }
        requires number_bound { (number < 35) × (fits_register number value ≡ true) }
        ensures { Does 1 (store number value) self.old self.new journal.old journal.new none }
    {
        if self.stop.is_none() {
            journal[self.at] = number as u32 * 16777216 + value;
            self.head.regs[number] = value;
            self.at += 1;
        }
    }

    // Writes an entry that is no store.
    pub fn write(&mut self, journal: &mut [u32], word: u32)
        requires { Lent 1 self.old journal.old none }
        ensures { Does 1 (unless_ended (with_entry word)) self.old self.new journal.old journal.new none }
    {
        if self.stop.is_none() {
            journal[self.at] = word;
            self.at += 1;
        }
    }

    // Ends the call with a refusal; what was stored stays.
    pub fn refuse(&mut self, refusal: Refusal)
        requires { Encodable self.old.head }
        ensures { DoesWithoutJournal (halted (number refusal)) self.old self.new }
    {
        if self.stop.is_none() {
            self.stop = Some(refusal);
        }
    }
}

// The cycles of a delay, rounded up, so that it is never short.
fn cycles(f: Hertz, us: u32) -> u32
    requires { (f.0 ≤ 384000000) × (us ≤ 1000) }
    ensures { (result ≡ cycles_of f.0 us) × (result ≤ 384000) }
{
    (u64::from(f.0) * u64::from(us)).div_ceil(1_000_000) as u32
}

// lib.rs `cortex_m_blocking_delay_us`: writes the delay's cycles, or ends the call with 34 where HCLK does not read.
pub fn delay_us(m: &mut Machine, journal: &mut [u32], us: u32)
    requires lent { Lent 1 m.old journal.old none }
    requires us_bound { us ≤ 1000 }
    ensures { Does 1 (delay us) m.old m.new journal.old journal.new none }
{
    let Some(f) = clock_read::get_hclk_freq(&m.head) else {
        m.refuse(Refusal::HclkUnreadable);
        return;
    };
    m.write(journal, 48 * 16777216 + cycles(f, us));
}
