// What `lpset` writes.
ghost use Rattle.std.specs.Prelude.{◌≡◌};
ghost use Rattle.digits.specs.hexadecimal.{hex_digits};

use call::Answer;
use digits::hexadecimal::digits;
use std::io;
use time::MaybeHertz;

// An entry's value in six digits, the last of its word.
pub fn value_digits(word: u32) -> [u8; 6]
    ensures { result ≡ hex_digits 6 word }
{
    digits::<6>(word)
}

// How many entries there are, and a line for each: its number, and its value.
pub fn steps<R: Print>(rt: &R, entries: &[u32]) -> io::Result<()> {
    println!(rt; "steps {}", entries.len())?;
    for word in entries {
        print!(rt; "{} ", *word >> 24)?;
        rt.write_all(&value_digits(*word))?;
        println!(rt)?;
    }
    Ok(())
}

// The last line: done or the refusal, and LPSYS HCLK in Hz or a dash for none.
pub fn result<R: Print>(rt: &R, answer: Answer, hclk: MaybeHertz) -> io::Result<()> {
    match answer {
        Ok(_) => print!(rt; "done ")?,
        Err(refused) => print!(rt; "{} ", refused.refusal.number())?,
    }
    match hclk.to_hertz() {
        Some(hertz) => println!(rt; "{}", hertz.0),
        None => println!(rt; "-"),
    }
}

pub fn usage<R: Eprint>(rt: &R) -> io::Result<()> {
    eprintln!(rt; "usage: lpset HEAD-FILE MHZ")
}
