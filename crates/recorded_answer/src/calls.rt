// A line that records a call on a head, compared with what the call was given and left.
ghost use Rattle.std.specs.Prelude.{◌≤◌, ◌≡◌, ◌++◌, OnOk, length};
ghost use Rattle.call.specs.Call.{entries_of};
ghost use Rattle.recorded_answer.specs.given.{given_text};
ghost use Rattle.recorded_answer.specs.left.{left_text};

use crate::Difference;
use call::Answer;
use text::Text;

// The name, the argument, the buffer, the answers and the former clocks are given; what is left of the
// buffer, the journal and the clocks stands after the answer.
pub fn compare<'a>(
    name: &[u8],
    argument: &[u8],
    buffer: &[u8],
    answers: &[u8],
    former: &[u32],
    answer: Answer,
    left: &[u8],
    journal: &[u32],
    clocks: &[u32],
    line: &[u8],
    text: &'a mut Text,
) -> Result<(), Difference<'a>>
    requires { entries_of answer ≤ length journal.now }
    ensures { OnOk result (line.now ≡
        given_text name.now argument.now buffer.now answers.now former.now
        ++ left_text answer left.now journal.now clocks.now) }
{
    crate::given::put_given(name, argument, buffer, answers, former, text);
    let given = text.len();
    crate::left::put_left(answer, left, journal, clocks, text);
    crate::compare(line, journal, call::answer::entries(answer), text, given)
}
