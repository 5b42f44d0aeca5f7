// The text that is held, and the words and numbers of a line.
#![tactic(auto, unfolding(lines::specs::Laid::laid_out, lines::specs::Laid::laid_end))]

ghost use Rattle.std.specs.Prelude.{[], ◌∷◌};
ghost use Rattle.text.specs.Texts.{hex_of, decimal_of};
ghost use Rattle.lines.specs.Words.{hex_number};
ghost use Rattle.replay.specs.Put.{Put};

use std::io;

// The text that is held at a time.
const TEXT_ROOM: usize = 65536;

// More than the text of one record: the longest reply has 384 bytes, and a state nine lines.
const RECORD_TEXT: usize = 4096;

// The text that is held: the first `used` of the bytes.
#[derive(Drop)]
pub(crate) struct Text {
    pub bytes: [u8; TEXT_ROOM],
    pub used: usize,
}

impl Text {
    // No text.
    pub(crate) fn new() -> Text {
        Text {
            bytes: [0; TEXT_ROOM],
            used: 0,
        }
    }

    // Writes the text that is held.
    pub(crate) fn flush(&mut self, rt: &impl Print) -> io::Result<()> {
        let end = self.used.min(TEXT_ROOM);
        self.used = 0;
        rt.write_all(&self.bytes[..end])
    }

    // Writes the text that is held where the next record's might not fit after it.
    pub(crate) fn make_room(&mut self, rt: &impl Print) -> io::Result<()> {
        if TEXT_ROOM - RECORD_TEXT < self.used {
            self.flush(rt)?;
        }
        Ok(())
    }

    // Puts a word.
    pub(crate) fn put_word(&mut self, word: &[u8])
        ensures { Put (word.now ∷ []) self.old self.new }
    {
        self.used = text::put(&mut self.bytes, self.used, word);
    }

    // Puts a word, and a number after it.
    pub(crate) fn put_field(&mut self, word: &[u8], n: u64)
        ensures { Put (word.now ∷ decimal_of n ∷ []) self.old self.new }
    {
        self.put_word(word);
        self.used = text::put_decimal(&mut self.bytes, self.used, n);
    }

    // Puts bytes in hex.
    pub(crate) fn put_bytes(&mut self, bytes: &[u8])
        ensures { Put (hex_of bytes.now ∷ []) self.old self.new }
    {
        self.used = text::put_hex(&mut self.bytes, self.used, bytes);
    }

    // Puts a number of 64 bits in 16 hex digits.
    #[tactic(auto, unfolding(octets::specs::Written::bytes_of))]
    pub(crate) fn put_hex_number(&mut self, n: u64)
        ensures { Put (hex_number n) self.old self.new }
    {
        self.put_bytes(&n.to_be_bytes());
    }
}
