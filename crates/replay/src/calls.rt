// Lines that record a call on a head: its name, its argument, the head's buffer, the answers and the
// clocks that it is lent; then what it left: the refusal or 0, the value, the number of entries and of
// answers taken, the entries, the buffer and the clocks. Our answer to the same is compared with the
// recorded one. The whole line is put together anew from what was read of it and from what our call
// left, so a line that was read wrongly differs.
ghost use Rattle.std.specs.Prelude.{◌≡◌, OnOk};
ghost use Rattle.recorded_line.specs.numbers.{answers_in};
ghost use Rattle.replay.specs.Line.{line_of, Recorded};

use crate::files;
use recorded_answer::Difference;
use recorded_line::calls::HeadCall;
use recorded_line::numbers::{clocks_in, join};
use text::{Text, fields};

// Runs a call on `left`, which holds the bytes of `buffer`, and compares the line with what it was given and left.
fn run_line<'a, C: HeadCall>(
    call: C,
    name: &[u8],
    argument: &[u8],
    buffer: &[u8],
    left: &mut [u8],
    answers: &[u8],
    words: &[u16],
    former: [u32; 15],
    line: &[u8],
    text: &'a mut Text,
) -> Result<(), Difference<'a>>
    requires { (left.old ≡ buffer.now) × (words.now ≡ answers_in answers.now) }
    ensures { OnOk result (line.now ≡ line_of (C.means call) name.now argument.now buffer.now answers.now former) }
{
    let mut clocks = former;
    let mut journal = [recorded_answer::UNUSED; 128];
    let answer = call.run(argument, &mut clocks, left, &mut journal, words);
    let lent = call.lent_clocks();
    recorded_answer::calls::compare(
        name,
        argument,
        buffer,
        answers,
        &former[..lent],
        answer,
        left,
        &journal,
        &clocks[..lent],
        line,
        text,
    )
}

impl<C: HeadCall> files::Recorded for C {
    ghost records = { λ call name line. Recorded (C.means call) name line };

    // The buffers have room for the bytes of any line of 4,096 digits.
    fn compare<'a>(
        self,
        name: &[u8],
        line: &[u8],
        text: &'a mut Text,
    ) -> Result<(), Difference<'a>> {
        let mut argument = [0u8; 2048];
        let mut buffer = [0u8; 2048];
        let mut answers = [0u8; 2048];
        let mut former = [0u8; 60];
        let rest = line.get(name.len()..).unwrap_or(&[]);
        let (argument, rest) = fields::decode(rest, &mut argument);
        let (buffer, rest) = fields::decode(rest, &mut buffer);
        let (answers, rest) = fields::decode(rest, &mut answers);
        fields::decode(rest, &mut former);
        let mut words = [0u16; 1024];
        let words = join(answers, &mut words);
        let mut left = [0u8; 2048];
        let left = &mut left[..buffer.len()];
        left.copy_from_slice(buffer);
        let former = clocks_in(&former);
        run_line(
            self, name, argument, buffer, left, answers, words, former, line, text,
        )
    }
}
