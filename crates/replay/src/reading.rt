// Lines that record a reading: its name, the bytes that it reads, and what it answers. Our answer to
// the same is compared with the recorded one. The whole line is put together anew, so a line that was
// read wrongly differs.
ghost use Rattle.std.specs.Prelude.{◌≡◌, ◌++◌, OnOk};
ghost use Rattle.refusal.specs.Refusal.{number_of};
ghost use Rattle.text.specs.Decimal.{number_field};
ghost use Rattle.text.specs.Hex.{word_field};
ghost use Rattle.text.specs.Text.{Puts};
ghost use Rattle.replay.specs.reading.{answer_text, Recorded};

use crate::files;
use recorded_answer::{Difference, UNUSED};
use refusal::Refusal;
use text::Text;

#[derive(Clone, Copy)]
pub enum Reading {
    Plan,
    Clocks,
    Lpsys,
    Load,
}

// Puts whether frequencies were read, and the list to which they were.
fn put_read(read: Result<(), Refusal>, frequencies: &[u32], text: &mut Text)
    ensures { Puts (number_field (number_of read) ++ word_field frequencies.now) text.old.bytes text.old.len text.new.bytes text.new.len }
{
    text.put_after_blank(u64::from(refusal::number_of(read)));
    text.put_words(frequencies);
}

// Puts our answer.
fn put_answer(reading: Reading, bytes: &[u8], text: &mut Text)
    ensures { Puts (answer_text reading bytes.now) text.old.bytes text.old.len text.new.bytes text.new.len }
{
    match reading {
        Reading::Plan => {
            let number = refusal::number_of(verdict::planned::check(bytes));
            text.put_after_blank(u64::from(number));
        }
        Reading::Clocks => {
            let mut clocks = [UNUSED; 15];
            let read = readings::read_clocks(bytes, &mut clocks);
            put_read(read, &clocks, text);
        }
        Reading::Lpsys => {
            let mut lpsys = [UNUSED; 6];
            let read = readings::read_lpsys(bytes, &mut lpsys);
            put_read(read, &lpsys, text);
        }
        Reading::Load => recorded_answer::loads::put_load(bytes, text),
    }
}

impl files::Recorded for Reading {
    ghost records = { λ reading name line. Recorded reading name line };

    // The buffer has room for the bytes of any line of 4,096 digits.
    fn compare<'a>(
        self,
        name: &[u8],
        line: &[u8],
        text: &'a mut Text,
    ) -> Result<(), Difference<'a>> {
        let mut buffer = [0u8; 2048];
        let rest = line.get(name.len()..).unwrap_or(&[]);
        let (bytes, _rest) = text::fields::decode(rest, &mut buffer);
        text.clear();
        text.put(name);
        text.put_bytes(bytes);
        let given = text.len();
        put_answer(self, bytes, text);
        recorded_answer::compare(line, &[0u32; 0], 0, text, given)
    }
}
