// Tests 4 to 8 of `ConfigBuilder::check`: a source that the plan does not have. One function each.
ghost use Rattle.std.specs.Prelude.{◌≡◌};
ghost use Rattle.limits.specs.Limits.{core_on_absent_dll1, core_on_dbl96, flash_on_absent_dll, usb_on_absent_dll2};

use plan::Plan;

const DBL96: u8 = 2;

const DLL1: u8 = 3;

const USB_DLL2: u8 = 1;

const MPI_DLL1: u8 = 1;

const MPI_DLL2: u8 = 2;

// 4
pub fn core_on_absent_dll1(p: Plan) -> bool
    ensures { result ≡ core_on_absent_dll1 p }
{
    p.sys == DLL1 && p.dll1.is_none()
}

// 5
pub fn core_on_dbl96(p: Plan) -> bool
    ensures { result ≡ core_on_dbl96 p }
{
    p.sys == DBL96
}

// 6 for mpi1, 7 for mpi2
pub fn flash_on_absent_dll(select: u8, p: Plan) -> bool
    ensures { result ≡ flash_on_absent_dll select p }
{
    match select {
        MPI_DLL1 => p.dll1.is_none(),
        MPI_DLL2 => p.dll2.is_none(),
        _ => false,
    }
}

// 8
pub fn usb_on_absent_dll2(p: Plan) -> bool
    ensures { result ≡ usb_on_absent_dll2 p }
{
    p.usb && p.usbsel == USB_DLL2 && p.dll2.is_none()
}
