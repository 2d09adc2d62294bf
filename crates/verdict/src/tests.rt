// rcc/clock_config.rs, `ConfigBuilder::check`: the tests of a plan in their order.
ghost use Rattle.std.specs.Prelude.{◌≡◌, true};
ghost use Rattle.record.specs.Refusals.{first_of};
ghost use Rattle.refusal.specs.Refusal.{number_of};
ghost use Rattle.plan.specs.Plan.{legal};
ghost use Rattle.plan_clocks.specs.Clocks.{sources_of, target_of};
ghost use Rattle.verdict.specs.tests.{frequency_tests, plan_refusal};

use plan::Plan;
use plan_clocks::{Sources, Target};
use refusal::Refusal;

// The tests of a plan that has these sources and gives `target`.
pub fn test(p: Plan, sources: Sources, target: Target) -> Result<(), Refusal>
    requires { (legal p ≡ true) × ((sources ≡ sources_of p) × (target ≡ target_of p)) }
    ensures { number_of result ≡ plan_refusal p }
{
    if limits::sources::core_on_absent_dll1(p) {
        return Err(Refusal::CoreDll1);
    }
    if limits::sources::core_on_dbl96(p) {
        return Err(Refusal::CoreDbl96);
    }
    if limits::sources::flash_on_absent_dll(p.mpi1sel, p) {
        return Err(Refusal::Mpi1);
    }
    if limits::sources::flash_on_absent_dll(p.mpi2sel, p) {
        return Err(Refusal::Mpi2);
    }
    if limits::sources::usb_on_absent_dll2(p) {
        return Err(Refusal::UsbDll2);
    }
    test_frequencies(p, sources, target)
}

// Tests 9 to 14.
fn test_frequencies(p: Plan, sources: Sources, target: Target) -> Result<(), Refusal>
    requires { (legal p ≡ true) × ((sources ≡ sources_of p) × (target ≡ target_of p)) }
    ensures { number_of result ≡ first_of (frequency_tests p) }
{
    let hclk = target.hclk;
    if limits::usb_not_60(p.usb, sources.usb) {
        return Err(Refusal::UsbClock);
    }
    if limits::dll1_core_too_slow(p.sys, sources.core) {
        return Err(Refusal::CoreClock);
    }
    if limits::hclk_too_fast(hclk) {
        return Err(Refusal::Hclk);
    }
    if limits::buses::pclk1_too_fast(hclk, target.pclk1) {
        return Err(Refusal::Pclk1);
    }
    if limits::buses::pclk2_too_fast(hclk, target.pclk2) {
        return Err(Refusal::Pclk2);
    }
    if limits::buses::dll2_too_fast(hclk, plan_clocks::dll_whole_freq(p.dll2)) {
        return Err(Refusal::Dll2);
    }
    Ok(())
}
