// Text that is put together part by part.
#![tactic(auto)]

pub mod fields;
pub mod file;
pub mod lines;

ghost use Rattle.std.specs.Prelude.{◌≡◌, ◌≤◌, ◌↔◌, IsTrue, length, take};
ghost use Rattle.text.specs.Decimal.{decimal_of, number_field};
ghost use Rattle.text.specs.Hex.{byte_field, word_field};
ghost use Rattle.text.specs.Text.{Puts};

use digits::hexadecimal::digits;

// How many bytes a text holds.
const ROOM: usize = 4096;

// A text, the first `len` of the bytes. One that is full may have been cut.
#[derive(Drop)]
pub struct Text {
    bytes: [u8; ROOM],
    len: usize,
    ghost in_bounds: { len ≤ length bytes },
}

impl Text {
    pub fn new() -> Text
        ensures { result.len ≡ 0 }
    {
        Text {
            bytes: [0; ROOM],
            len: 0,
        }
    }

    // Takes out what was put.
    pub fn clear(&mut self)
        ensures bytes { self.new.bytes ≡ self.old.bytes }
        ensures len { self.new.len ≡ 0 }
    {
        self.len = 0;
    }

    pub fn len(&self) -> usize
        ensures { result ≡ self.now.len }
    {
        self.len
    }

    pub fn is_full(&self) -> bool
        ensures { IsTrue result ↔ (self.now.len ≡ length self.now.bytes) }
    {
        self.len == ROOM
    }

    pub fn as_bytes(&self) -> &[u8]
        ensures { result.now ≡ take self.now.len self.now.bytes }
    {
        &self.bytes[..self.len]
    }

    // Puts bytes at the end. Where they do not fit, the text is full.
    pub fn put(&mut self, bytes: &[u8])
        ensures { Puts bytes.now self.old.bytes self.old.len self.new.bytes self.new.len }
    {
        if bytes.len() > ROOM - self.len {
            self.len = ROOM;
            return;
        }
        let end = self.len + bytes.len();
        self.bytes[self.len..end].copy_from_slice(bytes);
        self.len = end;
    }

    // Puts a number in decimal.
    pub fn put_number(&mut self, number: u64)
        ensures { Puts (decimal_of number) self.old.bytes self.old.len self.new.bytes self.new.len }
    {
        let mut digits = itoa::Buffer::new();
        self.put(digits.format(number).as_bytes());
    }

    // Puts a blank and a number.
    pub fn put_after_blank(&mut self, number: u64)
        ensures { Puts (number_field number) self.old.bytes self.old.len self.new.bytes self.new.len }
    {
        self.put(b" ");
        self.put_number(number);
    }

    // Puts a blank and a field of bytes.
    pub fn put_bytes(&mut self, bytes: &[u8])
        ensures { Puts (byte_field bytes.now) self.old.bytes self.old.len self.new.bytes self.new.len }
    {
        if bytes.is_empty() {
            return self.put(b" -");
        }
        self.put(b" ");
        for byte in bytes {
            self.put(&digits::<2>(u32::from(*byte)));
        }
    }

    // Puts a blank and a field of words. One function for bytes and words would take any iterator of
    // numbers, and its clauses on that and on what it yields are longer than this one.
    pub fn put_words(&mut self, words: &[u32])
        ensures { Puts (word_field words.now) self.old.bytes self.old.len self.new.bytes self.new.len }
    {
        if words.is_empty() {
            return self.put(b" -");
        }
        self.put(b" ");
        for word in words {
            self.put(&digits::<8>(*word));
        }
    }
}
