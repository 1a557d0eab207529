// A text that grows by words, numbers and amounts.
ghost use Rattle.std.specs.Prelude.{◌≡◌, ◌*◌, ◌^◌, ◌≤◌, [], ◌∷◌, ◌++◌, unsigned_abs, codes, decimal, OnOk};
ghost use Rattle.std.specs.Fmt.{signed_decimal};
ghost use Rattle.mwt_base.specs.Limits.{most_amount};
ghost use Rattle.length_enclosure.specs.Amount.{amount};

use itoa::Buffer;
use length_enclosure::write_units;
use mwt_base::NoMemory;
use std::alloc::Global;
use std::marker::Model;

/// A text that grows at its end. After `NoMemory` it is of no use.
#[derive(Drop)]
pub struct Text {
    bytes: Vec<u8>,
}

impl Model for Text {
    ghost use Rattle.std.specs.Prelude.{List, ℕ};

    ghost Value = { List ℕ };

    ghost view = { λ t. t.bytes.items };
}

impl Text {
    pub fn new(alloc: Global) -> Text
        ensures { result ≡ [] }
    {
        Text {
            bytes: Vec::new(alloc),
        }
    }

    pub fn word(&mut self, word: &str) -> Result<(), NoMemory>
        ensures { OnOk result (self.new ≡ self.old ++ word.now) }
    {
        self.bytes.extend_from_slice(word.as_bytes())?;
        Ok(())
    }

    pub fn number(&mut self, n: u32) -> Result<(), NoMemory>
        ensures { OnOk result (self.new ≡ self.old ++ decimal n) }
    {
        self.word(Buffer::new().format(n))
    }

    pub fn signed(&mut self, n: i64) -> Result<(), NoMemory>
        ensures { OnOk result (self.new ≡ self.old ++ signed_decimal n) }
    {
        self.word(Buffer::new().format(n))
    }

    /// A number of millionths.
    pub fn amount(&mut self, n: i128) -> Result<(), NoMemory>
        requires { unsigned_abs n ≤ most_amount }
        ensures { OnOk result (self.new ≡ self.old ++ amount n) }
    {
        write_units(&mut self.bytes, n)
    }

    pub fn into_bytes(self) -> Vec<u8>
        ensures { result.items ≡ self }
    {
        self.bytes
    }
}
