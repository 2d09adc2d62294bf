// What the setters of rcc/clock_lpsys.rs store of dividers: the words of registers 26 and 34.
ghost use Rattle.std.specs.Prelude.{◌≡◌};
ghost use Rattle.register.specs.Word.{word_of};

pub fn div_word(hdiv: u8, pdiv1: u8, pdiv2: u8) -> u32
    ensures { result ≡ word_of hdiv pdiv1 pdiv2 }
{
    register::word(u32::from(hdiv), u32::from(pdiv1), u32::from(pdiv2))
}

pub fn mac_word(macdiv: u8, macfreq: u8) -> u32
    ensures { result ≡ word_of 0 macdiv macfreq }
{
    register::word(0, u32::from(macdiv), u32::from(macfreq))
}
