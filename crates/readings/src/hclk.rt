// LPSYS HCLK read from a head's bytes.
ghost use Rattle.std.specs.Prelude.{◌≡◌};
ghost use Rattle.readings.specs.hclk.{hclk_in};

use time::MaybeHertz;

// LPSYS HCLK of the head in a buffer, and none where the head is refused.
#[tactic(auto, unfolding(crate::specs::hclk::hclk_in))]
pub fn lpsys_hclk(buffer: &[u8]) -> MaybeHertz
    ensures { result.0 ≡ hclk_in buffer.now }
{
    match head::from_bytes::decode(buffer) {
        Ok(head) => MaybeHertz::from(clock_read::lpsys::get_lpsys_hclk_freq(&head)),
        Err(_) => MaybeHertz::NONE,
    }
}
