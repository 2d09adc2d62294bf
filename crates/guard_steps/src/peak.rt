// The peak of a guarded change: the highest mode that its supply has to carry.
ghost use Rattle.std.specs.Prelude.{◌≡◌};
ghost use Rattle.guard_steps.specs.peak.{mode_at, peak_of};

use dvfs::HpsysDvfsMode;
use time::Hertz;

// The mode of a clock, the highest where it has none.
#[tactic(auto, unfolding(crate::specs::peak::mode_at))]
pub fn mode_at(f: Hertz) -> HpsysDvfsMode
    ensures { result ≡ mode_at f.0 }
{
    HpsysDvfsMode::from_hertz(f).unwrap_or(HpsysDvfsMode::S1)
}

// The highest mode among the present clock's, D1 and the target's.
#[tactic(auto, unfolding(crate::specs::peak::peak_of, crate::specs::peak::highest))]
pub fn of(present: Hertz, target: Hertz) -> HpsysDvfsMode
    ensures { result ≡ peak_of present.0 target.0 }
{
    mode_at(present).max(HpsysDvfsMode::D1).max(mode_at(target))
}
