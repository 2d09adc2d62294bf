// A call on a head, as lines record it.
ghost use Rattle.std.specs.Prelude.{ℕ, ◌≤◌, ◌≡◌, List, length};
ghost use Rattle.call.specs.Call.{Answers};
ghost use Rattle.recorded_line.specs.calls.{Definition};

use call::Answer;

pub trait HeadCall: Copy {
    ghost means: { Self → Definition };

    // How many clocks the call is lent.
    fn lent_clocks(self) -> usize
        ensures lent { result ≡ (means self).lent_clocks }
        ensures most { result ≤ 15 };

    // Runs the call. `clocks` are the former ones, then those that it leaves.
    fn run(
        self,
        argument: &[u8],
        clocks: &mut [u32; 15],
        buffer: &mut [u8],
        journal: &mut [u32],
        answers: &[u16],
    ) -> Answer
        ensures answers { Answers ((means self).result_of argument.now buffer.old journal.old answers.now) result buffer.new journal.new }
        ensures clocks_after { clocks.new ≡ (means self).clocks_after clocks.old argument.now buffer.old journal.old answers.now };

    // The entries of the call lie in the journal that it leaves.
    ghost within: { (call : Self) (x b j a : List ℕ) → ((means call).result_of x b j a).entries ≤ length ((means call).result_of x b j a).journal };
}
