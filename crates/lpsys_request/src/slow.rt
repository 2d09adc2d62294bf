// rcc/clock_lpsys.rs, `ensure_safe_lcpu_frequency` on a running call, and its refusal.
ghost use Rattle.head.specs.Encodable.{Encodable};
ghost use Rattle.journal.specs.Machine.{Lent, Does, DoesWithoutJournal, none};
ghost use Rattle.lpsys_request.specs.slow.{refuse_unread, slow_down};

use journal::Machine;
use refusal::Refusal;
use time::{Hertz, Megahertz};

// The most that LPSYS is left at, in Hz.
const LIMIT: u32 = 24_000_000;

// 43 where LPSYS HCLK does not read.
pub fn refuse_unread(m: &mut Machine)
    requires { Encodable m.old.head }
    ensures { DoesWithoutJournal refuse_unread m.old m.new }
{
    match clock_read::lpsys::get_lpsys_hclk_freq(&m.head) {
        Some(_) => {}
        None => m.refuse(Refusal::LpsysHclkUnreadable),
    }
}

// A request of 24 MHz where LPSYS is faster.
pub fn slow_down(m: &mut Machine, journal: &mut [u32])
    requires { Lent 6 m.old journal.old none }
    ensures { Does 6 slow_down m.old m.new journal.old journal.new none }
{
    let f = clock_read::lpsys::get_lpsys_hclk_freq(&m.head).unwrap_or(Hertz(0));
    if LIMIT < f.0 {
        crate::request(m, journal, Megahertz(24));
    }
}
