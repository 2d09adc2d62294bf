// The bytes of a plan that a call is lent: decoded and judged.
ghost use Rattle.std.specs.Prelude.{◌≡◌};
ghost use Rattle.refusal.specs.Refusal.{number_of, numbered};
ghost use Rattle.verdict.specs.Verdict.{verdict, number_of as number_of_verdict};
ghost use Rattle.verdict.specs.planned.{planned};

use plan::Plan;
use plan_clocks::Target;
use refusal::Refusal;

// A plan and what it gives.
#[derive(Clone, Copy)]
pub struct Planned {
    pub plan: Plan,
    pub target: Target,
}

// What a call that is lent the bytes of a plan goes on with, or the refusal 1 to 14.
pub fn admit(bytes: &[u8]) -> Result<Planned, Refusal>
    ensures { numbered result ≡ planned bytes.now }
{
    let plan = plan::bytes::decode(bytes)?;
    let target = crate::check_plan(plan)?;
    Ok(Planned { plan, target })
}

// The verdict on the bytes of a record.
pub fn check(bytes: &[u8]) -> Result<(), Refusal>
    ensures { number_of result ≡ number_of_verdict (verdict bytes.now) }
{
    admit(bytes)?;
    Ok(())
}
