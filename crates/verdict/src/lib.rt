// The verdict on a plan: rcc/clock_config.rs, `ConfigBuilder::check`.
#![tactic(auto)]

pub mod planned;
pub mod tests;

ghost use Rattle.std.specs.Prelude.{◌≡◌, true};
ghost use Rattle.refusal.specs.Refusal.{numbered};
ghost use Rattle.plan.specs.Plan.{legal};
ghost use Rattle.verdict.specs.Verdict.{verdict_of};

use plan::Plan;
pub use plan_clocks::Target;
use refusal::Refusal;

// `ConfigBuilder::check`: what a plan gives whose fields lie within their codes, as those of a decoded plan do, or its refusal 4 to 14.
pub fn check_plan(p: Plan) -> Result<Target, Refusal>
    requires { legal p ≡ true }
    ensures { numbered result ≡ verdict_of p }
{
    let sources = plan_clocks::sources_of(p);
    let target = plan_clocks::target_from(p, sources);
    tests::test(p, sources, target)?;
    Ok(target)
}
