// The 34 registers of a head record: their numbers, their words and their codes.
#![tactic(auto)]

pub mod bytes;

ghost use Rattle.std.specs.Prelude.{◌≡◌, ◌<◌};
ghost use Rattle.register.specs.Word.{word_of, byte_a, byte_b, byte_c};

// The registers' numbers.
pub const SYSCLK: usize = 1;

pub const HPSYS_CFGR: usize = 2;

pub const DLL1: usize = 3;

pub const DLL2: usize = 4;

pub const FLASH: usize = 5;

pub const PERI: usize = 6;

pub const USB_SOURCE: usize = 7;

pub const USB_DIVIDER: usize = 8;

pub const TICK: usize = 9;

pub const LOW_POWER: usize = 10;

pub const HPBG: usize = 11;

pub const HPSYS_SUPPLY: usize = 12;

pub const BUCK_VOUT: usize = 13;

pub const HPSYS_VOUT: usize = 14;

pub const SET_VOUT_M: usize = 15;

pub const HPSYS_LDO: usize = 16;

pub const HPSYS_TIMING: usize = 17;

pub const HRC_CLOCK_SELECT: usize = 18;

pub const HRC_TRIM: usize = 19;

pub const HRC_CALIBRATION_LENGTH: usize = 20;

pub const HRC_CALIBRATION_ON: usize = 21;

pub const HXT48_REQUEST: usize = 22;

pub const LRC32_ON: usize = 23;

pub const DLL_BUFFER_ON: usize = 24;

pub const LPSYS_SYSCLK: usize = 25;

pub const LPSYS_CFGR: usize = 26;

pub const LPSYS_PERI: usize = 27;

pub const LPSYS_SUPPLY: usize = 28;

pub const LPSYS_VOUT: usize = 29;

pub const LPSYS_LDO: usize = 30;

pub const LPSYS_TIMING: usize = 31;

pub const LPSYS_HXT48_REQUEST: usize = 32;

pub const HP2LP_REQUEST: usize = 33;

pub const LPSYS_MAC: usize = 34;

// The word of three bytes.
pub fn word(a: u32, b: u32, c: u32) -> u32
    requires { (a < 256) × ((b < 256) × (c < 256)) }
    ensures { result ≡ word_of a b c }
{
    a * 65536 + (b * 256 + c)
}

// The three bytes of a word.
pub fn a(word: u32) -> u32
    ensures { result ≡ byte_a word }
{
    word / 65536 % 256
}

pub fn b(word: u32) -> u32
    ensures { result ≡ byte_b word }
{
    word / 256 % 256
}

pub fn c(word: u32) -> u32
    ensures { result ≡ byte_c word }
{
    word % 256
}
