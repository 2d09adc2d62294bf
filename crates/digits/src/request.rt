// A request in decimal.
ghost use Rattle.std.specs.Prelude.{◌≡◌};
ghost use Rattle.digits.specs.Decimal.{number_in, request_of};

// The number that the digits spell, or the largest where it does not fit; none where there is no
// digit, or another byte among them.
pub fn decimal(text: &[u8]) -> Option<u32>
    ensures { result ≡ number_in text.now }
{
    let mut number: u32 = 0;
    for glyph in text {
        if !glyph.is_ascii_digit() {
            return None;
        }
        let digit = u32::from(*glyph - b'0');
        number = number.saturating_mul(10).saturating_add(digit);
    }
    if text.is_empty() { None } else { Some(number) }
}

// The request of a text: the number that it spells, and 0 where it spells none.
#[tactic(auto, using(crate::proofs::Decimal::request_is))]
pub fn request(text: &[u8]) -> u32
    ensures { result ≡ request_of text.now }
{
    decimal(text).unwrap_or(0)
}
