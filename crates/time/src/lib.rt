// time.rs: frequencies in hertz and in whole megahertz. The source is modified from embassy-stm32; see NOTICE.
#![tactic(auto)]

pub mod arithmetic;

ghost use Rattle.std.specs.Prelude.{◌≡◌};
ghost use Rattle.time.specs.Frequency.{megahertz};
ghost use Rattle.time.specs.MaybeHertz.{maybe, found};

// A frequency in Hz.
#[derive(Clone, Copy)]
pub struct Hertz(pub u32);

// A frequency in MHz, the rest cut off.
#[derive(Clone, Copy)]
pub struct Megahertz(pub u32);

impl Hertz {
    // The one way from Hz to whole MHz.
    pub fn whole_mhz(self) -> Megahertz
        ensures { result.0 ≡ megahertz self.0 }
    {
        Megahertz(self.0 / 1_000_000)
    }
}

// A frequency in Hz, 0 for none.
#[derive(Clone, Copy)]
pub struct MaybeHertz(pub u32);

impl MaybeHertz {
    pub const NONE: MaybeHertz = MaybeHertz(0);

    pub fn to_hertz(self) -> Option<Hertz>
        ensures { result ≡ found self.0 }
    {
        if self.0 == 0 {
            None
        } else {
            Some(Hertz(self.0))
        }
    }
}

impl From<Hertz> for MaybeHertz {
    ghost from_gives = { λ value maybe. maybe.0 ≡ value.0 };

    fn from(value: Hertz) -> MaybeHertz {
        MaybeHertz(value.0)
    }
}

impl From<Option<Hertz>> for MaybeHertz {
    ghost from_gives = { λ value result. result.0 ≡ maybe value };

    fn from(value: Option<Hertz>) -> MaybeHertz {
        value.map_or(MaybeHertz::NONE, |f| MaybeHertz(f.0))
    }
}
