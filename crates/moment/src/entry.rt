// Entries of a journal.
ghost use Rattle.std.specs.Prelude.{◌≡◌, ◌/◌, ◌%◌, ◌<◌};
ghost use Rattle.moment.specs.Moment.{is_entry, are_entries};

const VALUES: u32 = 16777216;

const DELAY: u32 = 48;

const WAIT: u32 = 49;

// The register that an entry stores, or 48 for a delay and 49 for a wait.
pub fn number(entry: u32) -> u32
    ensures { (result ≡ entry / 16777216) × (result < 256) }
{
    entry / VALUES
}

pub fn value(entry: u32) -> u32
    ensures { (result ≡ entry % 16777216) × (result < 16777216) }
{
    entry % VALUES
}

// Whether a word is a delay, a wait, or a store of what its register may hold.
#[tactic(auto, unfolding(crate::specs::Moment::is_entry))]
fn is_entry(word: u32) -> bool
    ensures { result ≡ is_entry word }
{
    match number(word) {
        DELAY | WAIT => true,
        n @ 1..=34 => register::bytes::codes::fits(n as usize, value(word)),
        _ => false,
    }
}

pub fn are_entries(words: &[u32]) -> bool
    ensures { result ≡ are_entries words.now }
{
    words.iter().all(|word| is_entry(*word))
}
