// Digits of upper-case hexadecimal.
ghost use Rattle.std.specs.Prelude.{◌<◌, ◌≡◌, IfSome};
ghost use Rattle.digits.specs.hexadecimal.{digit_of, pair_of, glyph_of, hex_digits};

// The value of a digit, if the byte is one.
pub fn digit(glyph: u8) -> Option<u8>
    ensures value { result ≡ digit_of glyph }
    ensures below { IfSome result (λ digit. digit < 16) }
{
    match glyph {
        b'0'..=b'9' => Some(glyph - b'0'),
        b'A'..=b'F' => Some(glyph - b'A' + 10),
        _ => None,
    }
}

// The byte of two digits, the high one first.
pub fn decode_pair(high: u8, low: u8) -> Option<u8>
    ensures { result ≡ pair_of high low }
{
    let high = digit(high)?;
    let low = digit(low)?;
    Some(high * 16 + low)
}

pub fn glyph(digit: u32) -> u8
    requires { digit < 16 }
    ensures { result ≡ glyph_of digit }
{
    b"0123456789ABCDEF"[digit as usize]
}

// The last digits of a number, the most significant first.
pub fn digits<const N: usize>(number: u32) -> [u8; N]
    ensures { result ≡ hex_digits N number }
{
    let mut glyphs = [0; N];
    let mut rest = number;
    for i in (0..N).rev() {
        glyphs[i] = glyph(rest % 16);
        rest /= 16;
    }
    glyphs
}
