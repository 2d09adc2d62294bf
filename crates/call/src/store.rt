// A call that does one store: the tests that calls share, one of the caller's own, the store, the end.
ghost use Rattle.std.specs.Prelude.{◌≡◌, true, ◌<◌};
ghost use Rattle.refusal.specs.Refusal.{number_of};
ghost use Rattle.register.specs.Codes.{fits_register};
ghost use Rattle.call.specs.Call.{Answers};
ghost use Rattle.call.specs.store.{store_call};

use crate::Answer;
use refusal::Refusal;

// `test` is what the caller's own test came to.
pub fn store_once(
    buffer: &mut [u8],
    test: Result<(), Refusal>,
    register: usize,
    word: u32,
    journal: &mut [u32],
) -> Answer
    requires { (register < 35) × (number_of test ≡ 0 → fits_register register word ≡ true) }
    ensures { Answers (store_call (number_of test) register word buffer.old journal.old) result buffer.new journal.new }
{
    let mut m = crate::admit(buffer, journal)?;
    test?;
    m.store(journal, register, word);
    crate::finish(&m, 0, buffer)
}
