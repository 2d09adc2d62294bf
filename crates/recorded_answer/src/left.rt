// The text of what a call on a head leaves.
ghost use Rattle.std.specs.Prelude.{◌≤◌, length};
ghost use Rattle.call.specs.Call.{entries_of};
ghost use Rattle.text.specs.Text.{Puts};
ghost use Rattle.recorded_answer.specs.left.{left_text};

use call::Answer;
use text::Text;

// Puts what a call left; the clocks are none where it is lent none.
pub fn put_left(answer: Answer, buffer: &[u8], journal: &[u32], clocks: &[u32], text: &mut Text)
    requires { entries_of answer ≤ length journal.now }
    ensures { Puts (left_text answer buffer.now journal.now clocks.now) text.old.bytes text.old.len text.new.bytes text.new.len }
{
    let entries = call::answer::entries(answer);
    text.put_after_blank(u64::from(call::answer::refusal(answer)));
    text.put_after_blank(u64::from(call::answer::value(answer)));
    text.put_after_blank(entries as u64);
    text.put_after_blank(call::answer::taken(answer) as u64);
    text.put_words(&journal[..entries]);
    text.put_bytes(buffer);
    text.put_words(clocks);
}
