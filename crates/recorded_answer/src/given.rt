// The text of what a call on a head is given.
ghost use Rattle.text.specs.Text.{Puts};
ghost use Rattle.recorded_answer.specs.given.{given_text};

use text::Text;

// Puts what a call is given at the start of the text; the clocks are none where it is lent none.
pub fn put_given(
    name: &[u8],
    argument: &[u8],
    buffer: &[u8],
    answers: &[u8],
    former: &[u32],
    text: &mut Text,
)
    ensures { Puts (given_text name.now argument.now buffer.now answers.now former.now) text.old.bytes 0 text.new.bytes text.new.len }
{
    text.clear();
    text.put(name);
    text.put_bytes(argument);
    text.put_bytes(buffer);
    text.put_bytes(answers);
    text.put_words(former);
}
