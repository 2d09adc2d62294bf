// rcc/clock_config.rs, `init` after its calibration: 31 and 33 are a warning.
ghost use Rattle.std.specs.Prelude.{◌≡◌};
ghost use Rattle.refusal.specs.Refusal.{number_or_zero};
ghost use Rattle.head.specs.Encodable.{Encodable};
ghost use Rattle.journal.specs.Machine.{DoesWithoutJournal};
ghost use Rattle.init_first.specs.warning.{warning, swallowed};

use journal::Machine;
use refusal::Refusal;

// 31 and 33 end the calibration, not `init`: the one that was swallowed.
#[tactic(auto, unfolding(crate::specs::warning::warning))]
pub fn swallow(m: &mut Machine) -> Option<Refusal>
    requires { Encodable m.old.head }
    ensures does_without_journal { DoesWithoutJournal swallowed m.old m.new }
    ensures warning_value { number_or_zero result ≡ warning (number_or_zero m.old.stop) }
{
    match m.stop {
        Some(Refusal::Hxt48NotReady | Refusal::Difference) => m.stop.take(),
        _ => None,
    }
}
