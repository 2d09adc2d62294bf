// The rail limit, the load and what makes a head unfit, read from its bytes.
#![tactic(auto)]

ghost use Rattle.std.specs.Prelude.{◌≡◌};
ghost use Rattle.refusal.specs.Refusal.{number_of};
ghost use Rattle.head.specs.Record.{head_refusal, head_of};
ghost use Rattle.head.specs.Encodable.{Encodable};
ghost use Rattle.readings.specs.Clocks.{unless_refused};
ghost use Rattle.fit_reading.specs.Reading.{fit_of};

use head::Head;
use refusal::Refusal;

// The three numbers, in their order.
#[tactic(auto, unfolding(crate::specs::Reading::fit_of))]
fn numbers(h: &Head) -> [u64; 3]
    requires { Encodable h.now }
    ensures { result ≡ fit_of h.now }
{
    let rail = u64::from(fit::rail::rail_limit(h).0);
    let load = load::total(h.booked());
    let unfit = match fit::test(h) {
        Ok(_) => 0,
        Err(unfit) => u64::from(unfit.number()),
    };
    [rail, load, unfit]
}

// Reads them from the head in a buffer, or refuses them with `fit` as it was. The head is read once
// its tests are passed: a head that `?` hands on is a copy more.
#[tactic(auto, using(head::proofs::from_bytes::Passed::passed, head::proofs::from_bytes::Decoding::decode_encodable))]
pub fn read_fit(buffer: &[u8], fit: &mut [u64; 3]) -> Result<(), Refusal>
    ensures value { number_of result ≡ head_refusal buffer.now }
    ensures fit_after { fit.new ≡ unless_refused buffer.now (fit_of (head_of buffer.now)) fit.old }
{
    head::from_bytes::test(buffer)?;
    let head = head::from_bytes::read(buffer);
    *fit = numbers(&head);
    Ok(())
}
