// The clocks that a call leaves beside a head.
ghost use Rattle.std.specs.Prelude.{◌≡◌, cond, eqb, replicate};
ghost use Rattle.refusal.specs.Refusal.{number_or_zero};
ghost use Rattle.head.specs.Encodable.{Encodable};
ghost use Rattle.readings.specs.Clocks.{clocks_of};
ghost use Rattle.call.specs.clocks.{with_audio_of};

use journal::Machine;

// The 15 frequencies of a call that is done, else all none.
pub fn clocks_after(m: &Machine) -> [u32; 15]
    requires { Encodable m.now.head }
    ensures { result ≡ cond (eqb (number_or_zero m.now.stop) 0) (clocks_of m.now.head) (replicate 15 0) }
{
    if m.stop.is_some() {
        return [0; 15];
    }
    readings::numbers(readings::read_hpsys_clocks_from_hw(&m.head))
}

// The 15 frequencies of a call that is done, with the audio PLL pair of the former ones; else the former ones.
pub fn clocks_beside(m: &Machine, former: [u32; 15]) -> [u32; 15]
    requires { Encodable m.now.head }
    ensures { result ≡ cond (eqb (number_or_zero m.now.stop) 0) (with_audio_of former (clocks_of m.now.head)) former }
{
    if m.stop.is_some() {
        return former;
    }
    let mut clocks = readings::numbers(readings::read_hpsys_clocks_from_hw(&m.head));
    clocks[13..].copy_from_slice(&former[13..]);
    clocks
}
