// The tests of a plan record: its lengths, its version, its codes.
ghost use Rattle.std.specs.Prelude.{◌≡◌};
ghost use Rattle.refusal.specs.Refusal.{number_of};
ghost use Rattle.plan.specs.tests.{record_refusal};

use refusal::Refusal;

const BYTES: usize = 20;

const LENGTH: u16 = 18;

const VERSION: u8 = 1;

// Refusals 1 to 3 of a record.
pub fn test(bytes: &[u8]) -> Result<(), Refusal>
    ensures { number_of result ≡ record_refusal bytes.now }
{
    if bytes.len() != BYTES {
        return Err(Refusal::Length);
    }
    if record::two_bytes(bytes[0], bytes[1]) != LENGTH {
        return Err(Refusal::Length);
    }
    if bytes[2] != VERSION {
        return Err(Refusal::Version);
    }
    if !crate::codes::is_coded(bytes) {
        return Err(Refusal::Code);
    }
    Ok(())
}
