// Our answers as text, compared with the lines that record the wanted ones.
#![tactic(auto)]

pub mod calls;
pub mod given;
pub mod left;
pub mod loads;

ghost use Rattle.std.specs.Prelude.{◌≤◌, ◌≡◌, OnOk, true, drop, take};
ghost use Rattle.recorded_answer.specs.Answer.{Shows, Keeps, Matches};

use text::Text;

// What a line is not the same for.
#[derive(Clone, Copy)]
pub enum Difference<'a> {
    // Our answer.
    Answer(&'a [u8]),
    // Our call changed words of the journal past its entries.
    Overwritten,
}

// What each word of the journal holds before a call; no entry has this number.
pub const UNUSED: u32 = 0xA5A5A5A5;

// Whether the words from `from` on hold what they held before the call.
fn keeps(journal: &[u32], from: usize) -> bool
    ensures { result ≡ true → Keeps journal.now from }
{
    journal.iter().skip(from).all(|word| *word == UNUSED)
}

// Compares the line with the text, in which our answer starts at `from`. A text that is full may have
// been cut, so it is not taken for the same.
pub fn compare<'a>(
    line: &[u8],
    journal: &[u32],
    entries: usize,
    text: &'a Text,
    from: usize,
) -> Result<(), Difference<'a>>
    requires { from ≤ text.now.len }
    ensures answer { Shows result (drop from (take text.now.len text.now.bytes)) }
    ensures same { OnOk result (Matches line.now journal.now entries text.now.bytes text.now.len) }
{
    if !keeps(journal, entries) {
        return Err(Difference::Overwritten);
    }
    if text.is_full() || line != text.as_bytes() {
        return Err(Difference::Answer(&text.as_bytes()[from..]));
    }
    Ok(())
}
