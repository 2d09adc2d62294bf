// Waits for a crystal that has a ready flag: HXT48, and that of LPSYS.
ghost use Rattle.std.specs.Prelude.{◌*◌, ◌<◌};
ghost use Rattle.head.specs.Encodable.{Encodable};
ghost use Rattle.journal.specs.Run.{entry, unless_ended, with_entry, hxt48_on, wait_hxt48, lpsys_hxt48_on, wait_lpsys_hxt48};
ghost use Rattle.journal.specs.Machine.{Lent, Does, DoesWithoutJournal, none, taking};

use journal::Machine;

// The entry of a wait that took no answer.
fn wait_none(m: &mut Machine, journal: &mut [u32], kind: u32)
    requires lent { Lent 1 m.old journal.old none }
    requires kind_bound { kind < 7 }
    ensures { Does 1 (unless_ended (with_entry (entry 49 (kind * 65536)))) m.old m.new journal.old journal.new none }
{
    m.write(journal, 49 * 16777216 + kind * 65536);
}

fn set_hxt48(m: &mut Machine)
    requires { Encodable m.old.head }
    ensures { DoesWithoutJournal (unless_ended hxt48_on) m.old m.new }
{
    if m.stop.is_none() {
        m.head.hxt48_ready = true;
    }
}

fn set_lpsys_hxt48(m: &mut Machine)
    requires { Encodable m.old.head }
    ensures { DoesWithoutJournal (unless_ended lpsys_hxt48_on) m.old m.new }
{
    if m.stop.is_none() {
        m.head.lpsys_hxt48_ready = true;
    }
}

// Kind 1: takes no answer where the ready flag is already 1, and sets it.
pub fn wait_hxt48(m: &mut Machine, journal: &mut [u32], answers: &[u16])
    requires { Lent 1 m.old journal.old (taking answers.now) }
    ensures { Does 1 (wait_hxt48 answers.now) m.old m.new journal.old journal.new (taking answers.now) }
{
    if m.head.hxt48_ready {
        wait_none(m, journal, 1);
        return;
    }
    crate::wait_for(m, journal, answers, 1);
    set_hxt48(m);
}

// Kind 2: the same for LPSYS.
pub fn wait_lpsys_hxt48(m: &mut Machine, journal: &mut [u32], answers: &[u16])
    requires { Lent 1 m.old journal.old (taking answers.now) }
    ensures { Does 1 (wait_lpsys_hxt48 answers.now) m.old m.new journal.old journal.new (taking answers.now) }
{
    if m.head.lpsys_hxt48_ready {
        wait_none(m, journal, 2);
        return;
    }
    crate::wait_for(m, journal, answers, 2);
    set_lpsys_hxt48(m);
}
