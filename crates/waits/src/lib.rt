// Waits of a running call: polls take the lent answers one after the other, 0 not ready, else ready.
#![tactic(auto)]

pub mod hxt48;

ghost use Rattle.std.specs.Prelude.{◌≡◌, ◌<◌, ◌≤◌, length, drop, None};
ghost use Rattle.journal.specs.Run.{poll, wait, measure};
ghost use Rattle.journal.specs.Machine.{Lent, Does, taking};
ghost use Rattle.waits.specs.Found.{Found};

use journal::Machine;
use refusal::Refusal;

// The place of the first ready answer from `from` on, or past the last.
fn first_ready(answers: &[u16], from: usize) -> usize
    requires { from ≤ length answers.now }
    ensures { Found answers.now from result (poll (drop from answers.now)) }
{
    let waiting = &answers[from..];
    match waiting.iter().position(|answer| *answer != 0) {
        Some(n) => from + n,
        None => answers.len(),
    }
}

// Waits of kinds 3, 4 and 6, and the polls of the others: writes the wait, or ends the call with 36 where the answers run out.
pub fn wait_for(m: &mut Machine, journal: &mut [u32], answers: &[u16], kind: u32)
    requires lent { Lent 1 m.old journal.old (taking answers.now) }
    requires kind_bound { kind < 7 }
    ensures { Does 1 (wait kind answers.now) m.old m.new journal.old journal.new (taking answers.now) }
{
    if m.stop.is_some() {
        return;
    }
    let i = first_ready(answers, m.taken);
    if i < answers.len() {
        journal[m.at] = 49 * 16777216 + (kind * 65536 + ((i + 1 - m.taken) as u32));
        m.at += 1;
        m.taken = i + 1;
    } else {
        m.taken = i;
        m.stop = Some(Refusal::AnswersRanOut);
    }
}

// Kind 5: polls, and takes two answers more, which are the counts; they are the last two taken.
pub fn measure(m: &mut Machine, journal: &mut [u32], answers: &[u16])
    requires { Lent 1 m.old journal.old (taking answers.now) }
    ensures does { Does 1 (measure answers.now) m.old m.new journal.old journal.new (taking answers.now) }
    ensures le_taken { m.new.stop ≡ None → 2 ≤ m.new.taken }
{
    if m.stop.is_some() {
        return;
    }
    let i = first_ready(answers, m.taken);
    if i + 2 < answers.len() {
        journal[m.at] = 49 * 16777216 + (5 * 65536 + ((i + 3 - m.taken) as u32));
        m.at += 1;
        m.taken = i + 3;
    } else {
        m.taken = answers.len();
        m.stop = Some(Refusal::AnswersRanOut);
    }
}
