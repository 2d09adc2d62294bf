// The count of wakes of the LPSYS core on a running call: one more, one less.
ghost use Rattle.head.specs.Encodable.{Encodable};
ghost use Rattle.journal.specs.Machine.{DoesWithoutJournal};
ghost use Rattle.lpsys_wake.specs.count.{count_up, count_down};

use journal::Machine;

pub fn count_up(m: &mut Machine)
    requires { Encodable m.old.head }
    ensures { DoesWithoutJournal count_up m.old m.new }
{
    if m.stop.is_none() {
        m.head.wake_count = m.head.wake_count.wrapping_add(1);
    }
}

pub fn count_down(m: &mut Machine)
    requires { Encodable m.old.head }
    ensures { DoesWithoutJournal count_down m.old m.new }
{
    if m.stop.is_none() {
        m.head.wake_count = m.head.wake_count.wrapping_sub(1);
    }
}
