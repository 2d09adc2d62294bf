// The registers of a head record in its bytes: their codes tested, read and written.
pub mod codes;

ghost use Rattle.std.specs.Prelude.{◌≡◌, ◌+◌, ◌≤◌, length, drop};
ghost use Rattle.register.specs.Word.{word_in, word_bytes};
ghost use Rattle.record.specs.Items.{joined, laid};
ghost use Rattle.layout.specs.Layout.{register_size, buffer_bytes};
ghost use Rattle.register.specs.bytes.{registers_in};

#[tactic(auto, unfolding(crate::specs::Word::word_in))]
fn word_at(buffer: &[u8], at: usize) -> u32
    requires { at + register_size ≤ length buffer.now }
    ensures { result ≡ word_in (drop at buffer.now) }
{
    crate::word(
        u32::from(buffer[at]),
        u32::from(buffer[at + 1]),
        u32::from(buffer[at + 2]),
    )
}

// The registers by number.
pub fn read(buffer: &[u8]) -> [u32; 35]
    requires { length buffer.now ≡ buffer_bytes }
    ensures { result ≡ registers_in buffer.now }
{
    let mut regs = [0u32; 35];
    for n in 1..35 {
        regs[n] = word_at(buffer, layout::REGISTER_SIZE * n);
    }
    regs
}

// Stores, and no `copy_from_slice`: of these the loop of `write` is compiled to vectors.
fn put_word(buffer: &mut [u8], at: usize, word: u32)
    requires { at + register_size ≤ length buffer.old }
    ensures { buffer.new ≡ laid at (word_bytes word) buffer.old }
{
    let [_, a, b, c] = word.to_be_bytes();
    buffer[at] = a;
    buffer[at + 1] = b;
    buffer[at + 2] = c;
}

// Writes registers 1 to 34 at their places.
#[tactic(auto, using(record::proofs::Laid::laid_from_one, record::proofs::Laid::laid_none, crate::proofs::Words::word_length), unfolding(record::specs::Items::joined))]
pub fn write(regs: &[u32; 35], buffer: &mut [u8])
    requires { length buffer.old ≡ buffer_bytes }
    ensures { buffer.new ≡ laid register_size (joined word_bytes (drop 1 regs.now)) buffer.old }
{
    for n in 1..35 {
        put_word(buffer, layout::REGISTER_SIZE * n, regs[n]);
    }
}
