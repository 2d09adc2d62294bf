// Tasks: the load check, booking, release and look-up.
ghost use Rattle.std.specs.Prelude.{◌≡◌, []};
ghost use Rattle.load.specs.check.{load_check, check_word};
ghost use Rattle.booking.specs.Booking.{book};
ghost use Rattle.booking.specs.Release.{release};
ghost use Rattle.booking.specs.LookUp.{look_up_call};
ghost use Rattle.call.specs.word.{Gives};

// The load of a list of tasks of nine bytes each, or the refusal number with the top bit set.
#[unsafe(no_mangle)]
pub extern "C" fn rikkovan_load_check(tasks: &[u8]) -> u64
    ensures { result ≡ check_word (load_check tasks.now) }
{
    load::check::word(load::check::load_check(tasks))
}

#[unsafe(no_mangle)]
pub extern "C" fn rikkovan_book(head: &mut [u8], id: u8, cycles: u32, period_us: u32) -> u64
    ensures { Gives (book (record { id = id; cycles = cycles; period = period_us }) head.old) result head.new [] }
{
    call::word::of_answer(booking::book(head, id, cycles, period_us))
}

#[unsafe(no_mangle)]
pub extern "C" fn rikkovan_release(head: &mut [u8], id: u8) -> u64
    ensures { Gives (release id head.old) result head.new [] }
{
    call::word::of_answer(booking::release(head, id))
}

// Twice the tasks read in looking for the id, and one more where one of them has it.
#[unsafe(no_mangle)]
pub extern "C" fn rikkovan_look_up(head: &[u8], id: u8) -> u64
    ensures { Gives (look_up_call id head.now) result head.now [] }
{
    call::word::of_answer(booking::look_up(head, id))
}
