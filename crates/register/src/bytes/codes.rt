// The codes of the registers and ready flags.
ghost use Rattle.std.specs.Prelude.{◌≡◌, ◌<◌, length, take, drop};
ghost use Rattle.record.specs.Bytes.{is_within};
ghost use Rattle.register.specs.Codes.{largest, fits_register};
ghost use Rattle.layout.specs.Layout.{register_size, coded_size, buffer_bytes};

// The largest values of the bytes that have codes, and of those that may hold anything.
const CORE: u8 = 3;

const FLASH: u8 = 3;

const SELECT: u8 = 1;

const FLAG: u8 = 1;

const STAGE: u8 = 15;

const EXPONENT: u8 = 7;

const DIVIDER: u8 = 7;

const LEVEL: u8 = 15;

const TRIM: u8 = 3;

const ANY: u8 = 255;

// The largest value of each byte of a record from register 1 on: bytes a, b, c of each register, and the ready flags.
const LARGEST: [u8; layout::CODED_SIZE] = [
    // 1 SYSCLK
    0, 0, CORE,
    // 2 HPSYS_CFGR
    ANY, EXPONENT, EXPONENT,
    // 3 DLL1
    FLAG, FLAG, STAGE,
    // 4 DLL2
    FLAG, FLAG, STAGE,
    // 5 FLASH
    0, FLASH, FLASH,
    // 6 PERI
    0, 0, SELECT,
    // 7 USB_SOURCE
    0, 0, SELECT,
    // 8 USB_DIVIDER
    0, 0, DIVIDER,
    // 9 TICK
    0, 0, 0,
    // 10 LOW_POWER
    0, 0, SELECT,
    // 11 HPBG
    0, FLAG, FLAG,
    // 12 HPSYS_SUPPLY
    0, 0, SELECT,
    // 13 BUCK_VOUT
    0, 0, LEVEL,
    // 14 HPSYS_VOUT
    0, 0, LEVEL,
    // 15 SET_VOUT_M
    0, 0, LEVEL,
    // 16 HPSYS_LDO
    0, 0, LEVEL,
    // 17 HPSYS_TIMING
    0, ANY, ANY,
    // 18 HRC_CLOCK_SELECT
    0, ANY, ANY,
    // 19 HRC_TRIM
    0, TRIM, ANY,
    // 20 HRC_CALIBRATION_LENGTH
    0, ANY, ANY,
    // 21 HRC_CALIBRATION_ON
    0, 0, FLAG,
    // 22 HXT48_REQUEST
    0, 0, FLAG,
    // 23 LRC32_ON
    0, 0, FLAG,
    // 24 DLL_BUFFER_ON
    0, 0, FLAG,
    // 25 LPSYS_SYSCLK
    0, 0, SELECT,
    // 26 LPSYS_CFGR
    ANY, EXPONENT, EXPONENT,
    // 27 LPSYS_PERI
    0, 0, SELECT,
    // 28 LPSYS_SUPPLY
    0, 0, SELECT,
    // 29 LPSYS_VOUT
    0, 0, LEVEL,
    // 30 LPSYS_LDO
    0, 0, LEVEL,
    // 31 LPSYS_TIMING
    0, ANY, ANY,
    // 32 LPSYS_HXT48_REQUEST
    0, 0, FLAG,
    // 33 HP2LP_REQUEST
    0, 0, FLAG,
    // 34 LPSYS_MAC
    0, ANY, ANY,
    // HXT48, HRC48 and LPSYS HXT48 ready
    FLAG, FLAG, FLAG,
];

// Whether each register and ready flag is within its codes.
#[tactic(auto, unfolding(crate::specs::Codes::largest))]
pub fn within(buffer: &[u8]) -> bool
    requires { length buffer.now ≡ buffer_bytes }
    ensures { result ≡ is_within (take coded_size (drop register_size buffer.now)) (drop register_size largest) }
{
    record::within(
        &buffer[layout::REGISTER_SIZE..layout::BOOT_MODE_AT],
        &LARGEST,
    )
}

// Whether register `n` may hold a word of three bytes.
pub fn fits(n: usize, word: u32) -> bool
    requires { (0 < n) × ((n < 35) × (word < 16777216)) }
    ensures { result ≡ fits_register n word }
{
    let at = layout::REGISTER_SIZE * (n - 1);
    let end = at + layout::REGISTER_SIZE;
    record::within(&word.to_be_bytes()[1..], &LARGEST[at..end])
}
