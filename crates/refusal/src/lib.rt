// The refusals of document 01, by number, and what a function answers that may refuse.
#![tactic(auto)]

ghost use Rattle.std.specs.Prelude.{◌≡◌};
ghost use Rattle.refusal.specs.Refusal.{number, number_of};

#[derive(Clone, Copy, Debug, PartialEq, Eq)]
pub enum Refusal {
    // A record, or a plan.
    Length = 1,
    Version = 2,
    Code = 3,
    // A plan.
    CoreDll1 = 4,
    CoreDbl96 = 5,
    Mpi1 = 6,
    Mpi2 = 7,
    UsbDll2 = 8,
    UsbClock = 9,
    CoreClock = 10,
    Hclk = 11,
    Pclk1 = 12,
    Pclk2 = 13,
    Dll2 = 14,
    // What a call is given.
    LpsysRequest = 15,
    Task = 16,
    Journal = 17,
    Answers = 18,
    // A call as it runs.
    Hxt48NotReady = 31,
    OnHrc48 = 32,
    Difference = 33,
    HclkUnreadable = 34,
    PresentHclk = 35,
    AnswersRanOut = 36,
    // A guarded change, a booking, a release.
    Unfit = 37,
    Oscillator = 38,
    Load = 39,
    IdInUse = 40,
    Tasks = 41,
    IdUnknown = 42,
    // LPSYS HCLK before it is slowed down.
    LpsysHclkUnreadable = 43,
}

impl Refusal {
    pub fn number(self) -> u8
        ensures { result ≡ number self }
    {
        self as u8
    }
}

// The number of a refusal, 0 for none.
pub fn number_of<T: Copy>(answer: Result<T, Refusal>) -> u8
    ensures { result ≡ number_of answer }
{
    match answer {
        Ok(_) => 0,
        Err(refusal) => refusal.number(),
    }
}
