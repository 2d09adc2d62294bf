// The bytes of a record: numbers of two and of four bytes, the largest value that each byte may hold, and bytes written at a place.
#![tactic(auto)]

ghost use Rattle.std.specs.Prelude.{◌≡◌, ◌+◌, ◌≤◌, length, drop};
ghost use Rattle.record.specs.Bytes.{two_bytes, is_within};
ghost use Rattle.record.specs.Items.{laid};
ghost use Rattle.record.specs.Four.{four_of, four_bytes, four_in};

// The number of two bytes, high byte first.
pub fn two_bytes(high: u8, low: u8) -> u16
    ensures { result ≡ two_bytes high low }
{
    u16::from_be_bytes([high, low])
}

// The number of four bytes, high byte first.
pub fn four_bytes(a: u8, b: u8, c: u8, d: u8) -> u32
    ensures { result ≡ four_of a b c d }
{
    u32::from_be_bytes([a, b, c, d])
}

// The number at a place of bytes.
#[tactic(auto, unfolding(crate::specs::Four::four_in))]
pub fn four_at(bytes: &[u8], at: usize) -> u32
    requires { at + 4 ≤ length bytes.now }
    ensures { result ≡ four_in (drop at bytes.now) }
{
    four_bytes(bytes[at], bytes[at + 1], bytes[at + 2], bytes[at + 3])
}

#[tactic(auto, unfolding(crate::specs::Four::four_bytes))]
pub fn put_four(buffer: &mut [u8], at: usize, number: u32)
    requires { at + 4 ≤ length buffer.old }
    ensures { buffer.new ≡ laid at (four_bytes number) buffer.old }
{
    put(buffer, at, &number.to_be_bytes());
}

// Whether each byte is at most the largest value at its place. The fold has one way through, so that it
// is compiled to vectors.
pub fn within(bytes: &[u8], largest: &[u8]) -> bool
    ensures { result ≡ is_within bytes.now largest.now }
{
    bytes.len() == largest.len()
        && bytes
            .iter()
            .zip(largest)
            .fold(true, |all, (byte, most)| all & (byte <= most))
}

// Writes bytes over those of a buffer, from a place on.
#[tactic(auto, using(crate::proofs::Laid::laid_part))]
pub fn put(buffer: &mut [u8], at: usize, part: &[u8])
    requires { at + length part.now ≤ length buffer.old }
    ensures { buffer.new ≡ laid at part.now buffer.old }
{
    buffer[at..at + part.len()].copy_from_slice(part);
}
