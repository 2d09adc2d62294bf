// A moment: the stores of entries put into a head's bytes.
#![tactic(auto)]

pub mod entry;

ghost use Rattle.std.specs.Prelude.{◌≡◌, []};
ghost use Rattle.journal.specs.Run.{replayed};
ghost use Rattle.call.specs.Call.{Answers};
ghost use Rattle.moment.specs.Moment.{with_stores, moment};

use call::{Answer, Refused};
use head::Head;
use refusal::Refusal;

// The registers with the stores of entries put in, one after the other; delays and waits change nothing.
fn replay(regs: [u32; 35], entries: &[u32]) -> [u32; 35]
    ensures { result ≡ replayed regs entries.now }
{
    let mut regs = regs;
    for entry in entries {
        let n = entry::number(*entry) as usize;
        if n < 35 {
            regs[n] = entry::value(*entry);
        }
    }
    regs
}

fn with_stores(head: Head, entries: &[u32]) -> Head
    ensures { result ≡ with_stores entries.now head }
{
    let mut head = head;
    head.regs = replay(head.regs, entries);
    head
}

// Puts the stores of entries into the head in a buffer.
pub fn put(buffer: &mut [u8], entries: &[u32]) -> Answer
    ensures { Answers (moment entries.now buffer.old) result buffer.new [] }
{
    let mut m = call::admit_head(buffer)?;
    if !entry::are_entries(entries) {
        return Err(Refused::from(Refusal::Code));
    }
    m.head = with_stores(m.head, entries);
    call::finish(&m, 0, buffer)
}
