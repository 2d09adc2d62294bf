// The words of a DLL's register, 3 for DLL1 and 4 for DLL2: off as it is set, and on with a new setting.
ghost use Rattle.std.specs.Prelude.{◌≡◌, true, ◌≤◌};
ghost use Rattle.record.specs.Bytes.{bit};
ghost use Rattle.register.specs.Word.{word_of, byte_b, byte_c};
ghost use Rattle.register.specs.Codes.{fits_register};
ghost use Rattle.head.specs.Encodable.{Encodable};
ghost use Rattle.clock_read.specs.Hpsys.{reg};

use clock::Dll;
use head::Head;

pub fn off_word(h: &Head, number: usize) -> u32
    requires encodable { Encodable h.now }
    requires le_number { (3 ≤ number) × (number ≤ 4) }
    ensures { (result ≡ word_of 0 (byte_b (reg h.now number)) (byte_c (reg h.now number))) × (fits_register number result ≡ true) }
{
    let old = h.regs[number];
    register::word(0, register::b(old), register::c(old))
}

pub fn on_word(d: Dll, number: usize) -> u32
    requires le_number { (3 ≤ number) × (number ≤ 4) }
    requires stage_bound { d.stage ≤ 15 }
    ensures { (result ≡ word_of 1 (bit d.half) d.stage) × (fits_register number result ≡ true) }
{
    register::word(1, u32::from(d.half), u32::from(d.stage))
}
