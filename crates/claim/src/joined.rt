// A call of each kind, in a row on one lent head, with the claim about them: how the claim and the code meet.
ghost use Rattle.std.specs.Prelude.{[], ◌∷◌};
ghost use Rattle.claim.specs.Claim.{changing, booking, releasing, requesting};
ghost use Rattle.claim.specs.joined.{Joined};

use call::Answer;
use time::Megahertz;

#[derive(Clone, Copy)]
pub struct Four {
    pub changed: Answer,
    pub booked: Answer,
    pub released: Answer,
    pub requested: Answer,
}

// A guarded change, a booking, the release of an id, and an LPSYS request with a journal of its own.
pub fn one_of_each(
    buffer: &mut [u8],
    plan: &[u8],
    journal: &mut [u32],
    answers: &[u16],
    id: u8,
    cycles: u32,
    period: u32,
    done: u8,
    freq: Megahertz,
    requests: &mut [u32],
) -> Four
    ensures { Joined buffer.old
        (changing plan.now journal.old answers.now
        ∷ booking (record { id = id; cycles = cycles; period = period })
        ∷ releasing done
        ∷ requesting freq.0 requests.old
        ∷ [])
        ((result.changed, journal.new) ∷ (result.booked, []) ∷ (result.released, []) ∷ (result.requested, requests.new) ∷ [])
        buffer.new }
{
    let changed = guard::change(buffer, plan, journal, answers);
    let booked = booking::book(buffer, id, cycles, period);
    let released = booking::release(buffer, done);
    let requested = lpsys_request::frequency::config_lpsys_hclk_mhz(buffer, freq, requests);
    Four {
        changed,
        booked,
        released,
        requested,
    }
}
