// A booking, a release and a look-up, run on an argument's bytes.
ghost use Rattle.std.specs.Prelude.{◌≤◌, ◌≡◌, length};
ghost use Rattle.call.specs.Call.{Answers};
ghost use Rattle.recorded_call.specs.tasks.{beside, result_of};
ghost use Rattle.recorded_call.specs.tasks_entries.{result_within};

use call::Answer;
use recorded_line::calls::HeadCall;
use recorded_line::{byte_at, four_at};

#[derive(Clone, Copy)]
pub enum Call {
    Book,
    Release,
    LookUp,
}

// Each is lent neither journal, answers nor clocks.
impl HeadCall for Call {
    ghost means = { λ call. record { result_of = λ x b j a. beside j (result_of call x b); clocks_after = λ former x b j a. former; lent_clocks = 0 } };

    fn lent_clocks(self) -> usize {
        0
    }

    #[tactic(auto, unfolding(task::specs::bytes::task_in))]
    fn run(
        self,
        argument: &[u8],
        _clocks: &mut [u32; 15],
        buffer: &mut [u8],
        _journal: &mut [u32],
        _answers: &[u16],
    ) -> Answer {
        let id = byte_at(argument, 0);
        let cycles = four_at(argument, 1);
        let period = four_at(argument, 5);
        match self {
            Call::Book => booking::book(buffer, id, cycles, period),
            Call::Release => booking::release(buffer, id),
            Call::LookUp => booking::look_up(buffer, id),
        }
    }

    ghost within = { result_within };
}
