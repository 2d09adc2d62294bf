// time.rs: frequencies made of Hz, kHz and MHz, their sums, products and quotients. The source is modified from embassy-stm32; see NOTICE.
// Ported since document 01 lists the file; nothing calls them.
ghost use Rattle.std.specs.Prelude.{◌≡◌, ◌+◌, ◌*◌};
ghost use Rattle.time.specs.arithmetic.{exact, quotient};

use crate::Hertz;

// Why a sum, a product or a quotient is no frequency.
#[derive(Clone, Copy, Debug, PartialEq, Eq)]
pub enum ArithmeticError {
    // The result does not fit 32 bits.
    Overflow,
    ByZero,
}

fn in_32_bits(hertz: u64) -> Result<Hertz, ArithmeticError>
    ensures { result ≡ exact hertz }
{
    if hertz < 4294967296 {
        Ok(Hertz(hertz as u32))
    } else {
        Err(ArithmeticError::Overflow)
    }
}

pub fn hz(hertz: u32) -> Hertz
    ensures { result.0 ≡ hertz }
{
    Hertz(hertz)
}

pub fn khz(kilohertz: u32) -> Result<Hertz, ArithmeticError>
    ensures { result ≡ exact (kilohertz * 1000) }
{
    in_32_bits(u64::from(kilohertz) * 1000)
}

pub fn mhz(megahertz: u32) -> Result<Hertz, ArithmeticError>
    ensures { result ≡ exact (megahertz * 1000000) }
{
    in_32_bits(u64::from(megahertz) * 1000000)
}

pub fn mul(f: Hertz, rhs: u32) -> Result<Hertz, ArithmeticError>
    ensures { result ≡ exact (f.0 * rhs) }
{
    in_32_bits(u64::from(f.0) * u64::from(rhs))
}

pub fn div(f: Hertz, rhs: u32) -> Result<Hertz, ArithmeticError>
    ensures { result ≡ quotient f.0 rhs }
{
    if rhs == 0 {
        return Err(ArithmeticError::ByZero);
    }
    Ok(Hertz(f.0 / rhs))
}

pub fn add(f: Hertz, rhs: Hertz) -> Result<Hertz, ArithmeticError>
    ensures { result ≡ exact (f.0 + rhs.0) }
{
    in_32_bits(u64::from(f.0) + u64::from(rhs.0))
}
