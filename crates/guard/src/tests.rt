// The tests of the guarded change: 37, 38 and 39.
ghost use Rattle.std.specs.Prelude.{◌≡◌};
ghost use Rattle.refusal.specs.Refusal.{number_of};
ghost use Rattle.record.specs.Refusals.{first_of};
ghost use Rattle.plan_clocks.specs.Clocks.{hclk_hz};
ghost use Rattle.head.specs.Encodable.{Encodable};
ghost use Rattle.guard.specs.tests.{unready, overloaded, guard_tests};

use head::Head;
use plan::Plan;
use refusal::Refusal;
use time::Hertz;

// A plan's core select.
const HRC48: u8 = 0;

// Whether HXT48, or a planned HRC48, is not ready.
fn is_unready(p: Plan, head: &Head) -> bool
    ensures { result ≡ unready p head.now }
{
    !head.hxt48_ready || (p.sys == HRC48 && !head.hrc48_ready)
}

// Whether the booked tasks ask for more than a clock.
fn is_overloaded(target: Hertz, head: &Head) -> bool
    requires { Encodable head.now }
    ensures { result ≡ overloaded target.0 head.now }
{
    u64::from(target.0) < load::total(head.booked())
}

// 37, 38 and 39; `target` is the plan's HCLK.
#[tactic(auto, unfolding(record::specs::Refusals::first_of))]
pub fn test(p: Plan, target: Hertz, head: &Head) -> Result<(), Refusal>
    requires encodable { Encodable head.now }
    requires target_value { target.0 ≡ hclk_hz p }
    ensures { number_of result ≡ first_of (guard_tests p head.now) }
{
    if !fit::is_fit(head) {
        return Err(Refusal::Unfit);
    }
    if is_unready(p, head) {
        return Err(Refusal::Oscillator);
    }
    if is_overloaded(target, head) {
        return Err(Refusal::Load);
    }
    Ok(())
}
