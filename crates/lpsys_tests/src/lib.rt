// The tests of what the calls of rcc/clock_lpsys.rs are given.
#![tactic(auto)]

pub mod words;

ghost use Rattle.std.specs.Prelude.{◌≡◌};
ghost use Rattle.refusal.specs.Refusal.{number_of};
ghost use Rattle.lpsys_tests.specs.Tests.{request_refusal, div_refusal, source_refusal};

use refusal::Refusal;
use time::Megahertz;

// The test of an LPSYS request.
pub fn test_request(freq: Megahertz) -> Result<(), Refusal>
    ensures { number_of result ≡ request_refusal freq.0 }
{
    if freq.0 == 0 || 48 < freq.0 {
        return Err(Refusal::LpsysRequest);
    }
    Ok(())
}

// The test of the two exponents.
pub fn test_div(pdiv1: u8, pdiv2: u8) -> Result<(), Refusal>
    ensures { number_of result ≡ div_refusal pdiv1 pdiv2 }
{
    if 7 < pdiv1 || 7 < pdiv2 {
        return Err(Refusal::Code);
    }
    Ok(())
}

// The test of a source.
pub fn test_source(source: u8) -> Result<(), Refusal>
    ensures { number_of result ≡ source_refusal source }
{
    if 1 < source {
        return Err(Refusal::Code);
    }
    Ok(())
}
