// rcc/clock_config.rs, `init`: the flash selects, once DLL2 is set anew.
ghost use Rattle.std.specs.Prelude.{◌≡◌, true, ◌≤◌};
ghost use Rattle.register.specs.Numbers.{FLASH};
ghost use Rattle.register.specs.Codes.{fits_register};
ghost use Rattle.init_rest.specs.flash.{select_back, flash_back};

const FLASH_DLL2: u32 = 2;

fn back_to(select: u32) -> u32
    ensures { (result ≡ select_back select) × (result ≤ 2) }
{
    if select == FLASH_DLL2 {
        return FLASH_DLL2;
    }
    0
}

// What the register of the flash selects is set back to, from what it held before.
#[tactic(auto, using(crate::proofs::Fits::flash_fits), unfolding(crate::specs::flash::flash_back))]
pub fn flash_back(old: u32) -> u32
    ensures { (result ≡ flash_back old) × (fits_register FLASH result ≡ true) }
{
    register::word(0, back_to(register::b(old)), back_to(register::c(old)))
}
