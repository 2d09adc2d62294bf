// Whether a head is fit: its clocks within its supplies, and no flash clock from a DLL that is off.
#![tactic(auto)]

pub mod rail;

ghost use Rattle.std.specs.Prelude.{◌≡◌};
ghost use Rattle.head.specs.Encodable.{Encodable};
ghost use Rattle.record.specs.Refusals.{first_of};
ghost use Rattle.fit.specs.Fit.{source_is_on, fits};
ghost use Rattle.fit.specs.Unfit.{clause_number, clause_of, lpsys_clauses, unfit_for};
ghost use Rattle.clock_read.specs.Hpsys.{reg};
ghost use Rattle.clock_read.specs.lpsys.{lpsys_hclk_of};
ghost use Rattle.register.specs.Numbers.{LPSYS_SUPPLY};

use head::Head;

// The clauses of a fit head. The first that does not hold makes a head unfit.
#[derive(Clone, Copy, Debug, PartialEq, Eq)]
pub enum Clause {
    HclkUnreadable = 1,
    HclkAboveRail = 2,
    Mpi1DllOff = 3,
    Mpi2DllOff = 4,
    LpsysHclkUnreadable = 5,
    LpsysHclkAboveSupply = 6,
}

impl Clause {
    pub fn number(self) -> u8
        ensures { result ≡ clause_number self }
    {
        self as u8
    }
}

// Whether a flash select names no DLL that is off.
#[tactic(auto, unfolding(crate::specs::Fit::source_is_on))]
fn source_is_on(select: u32, dll1: u32, dll2: u32) -> bool
    ensures { result ≡ source_is_on select dll1 dll2 }
{
    match select {
        1 => register::a(dll1) == 1,
        2 => register::a(dll2) == 1,
        _ => true,
    }
}

// The clauses of LPSYS.
#[tactic(auto, unfolding(record::specs::Refusals::first_of))]
fn test_lpsys(h: &Head) -> Result<(), Clause>
    ensures { clause_of result ≡ first_of (lpsys_clauses (lpsys_hclk_of h.now) (reg h.now LPSYS_SUPPLY)) }
{
    let hclk = clock_read::lpsys::get_lpsys_hclk_freq(h).ok_or(Clause::LpsysHclkUnreadable)?;
    if 24_000_000 < hclk.0 && h.regs[register::LPSYS_SUPPLY] != 1 {
        return Err(Clause::LpsysHclkAboveSupply);
    }
    Ok(())
}

// All clauses, in their order.
#[tactic(auto, unfolding(crate::specs::Unfit::unfit_for, record::specs::Refusals::first_of))]
pub fn test(h: &Head) -> Result<(), Clause>
    requires { Encodable h.now }
    ensures { clause_of result ≡ unfit_for h.now }
{
    let hclk = clock_read::get_hclk_freq(h).ok_or(Clause::HclkUnreadable)?;
    if rail::rail_limit(h).0 < hclk.0 {
        return Err(Clause::HclkAboveRail);
    }
    let selects = h.regs[register::FLASH];
    let dll1 = h.regs[register::DLL1];
    let dll2 = h.regs[register::DLL2];
    if !source_is_on(register::b(selects), dll1, dll2) {
        return Err(Clause::Mpi1DllOff);
    }
    if !source_is_on(register::c(selects), dll1, dll2) {
        return Err(Clause::Mpi2DllOff);
    }
    test_lpsys(h)
}

#[tactic(auto, using(crate::proofs::Unfit::ok_is, crate::proofs::Unfit::fit_unless))]
pub fn is_fit(h: &Head) -> bool
    requires { Encodable h.now }
    ensures { result ≡ fits h.now }
{
    test(h).is_ok()
}
