// The flash selects of a head, moved away from DLL1.
ghost use Rattle.std.specs.Prelude.{◌≡◌, true, ◌<◌};
ghost use Rattle.register.specs.Codes.{fits_register};
ghost use Rattle.guard_steps.specs.flash.{on_dll1, away, moved};
ghost use Rattle.register.specs.Numbers.{FLASH};

const DLL1: u32 = 1;

// Whether one of the flash selects is on DLL1.
pub fn is_on_dll1(selects: u32) -> bool
    ensures { result ≡ on_dll1 selects }
{
    register::b(selects) == DLL1 || register::c(selects) == DLL1
}

// Peri in place of DLL1.
fn away(select: u32) -> u32
    requires { select < 256 }
    ensures { (result ≡ away select) × (result < 256) }
{
    if select == DLL1 {
        return 0;
    }
    select
}

// The selects with Peri in place of DLL1.
#[tactic(auto, using(crate::proofs::flash::Fits::moved_fits))]
pub fn moved(selects: u32) -> u32
    requires { fits_register FLASH selects ≡ true }
    ensures { (result ≡ moved selects) × (fits_register FLASH result ≡ true) }
{
    let first = away(register::b(selects));
    let second = away(register::c(selects));
    register::word(0, first, second)
}
