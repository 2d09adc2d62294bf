// What a call answers, and the four numbers of it.
ghost use Rattle.std.specs.Prelude.{◌≡◌};
ghost use Rattle.call.specs.Call.{refusal_of, value_of, entries_of, taken_of};

use refusal::Refusal;

// What a call that is done answers: its value, the entries written and the answers taken.
#[derive(Clone, Copy)]
pub struct Done {
    pub value: u32,
    pub entries: usize,
    pub taken: usize,
}

// What a refused call answers: its refusal, and the entries written and the answers taken until then.
#[derive(Clone, Copy)]
pub struct Refused {
    pub refusal: Refusal,
    pub entries: usize,
    pub taken: usize,
}

pub type Answer = Result<Done, Refused>;

// A refusal that changes neither head nor journal.
impl From<Refusal> for Refused {
    ghost from_gives = { λ refusal refused. refused ≡ record { refusal = refusal; entries = 0; taken = 0 } };

    fn from(refusal: Refusal) -> Refused {
        Refused {
            refusal,
            entries: 0,
            taken: 0,
        }
    }
}

// 0 for a call that is done.
pub fn refusal(answer: Answer) -> u8
    ensures { result ≡ refusal_of answer }
{
    match answer {
        Ok(_) => 0,
        Err(refused) => refused.refusal.number(),
    }
}

pub fn value(answer: Answer) -> u32
    ensures { result ≡ value_of answer }
{
    match answer {
        Ok(done) => done.value,
        Err(_) => 0,
    }
}

pub fn entries(answer: Answer) -> usize
    ensures { result ≡ entries_of answer }
{
    match answer {
        Ok(done) => done.entries,
        Err(refused) => refused.entries,
    }
}

pub fn taken(answer: Answer) -> usize
    ensures { result ≡ taken_of answer }
{
    match answer {
        Ok(done) => done.taken,
        Err(refused) => refused.taken,
    }
}
