ghost use Rattle.std.specs.Prelude.{◌≡◌, [], ◌++◌, OnOk, OnErr, decimal};
ghost use Rattle.std.specs.Fmt.{signed_decimal};
ghost use Rattle.text_out.specs.Names.{plain_name, target_text};

use crate::names::{name_text, target_text};
use class_pool::{Target, Text};
use itoa::Buffer;
use std::alloc::{AllocError, Global};
use std::marker::Model;

/// Bytes that grow at their end. What finds no memory leaves them as they were.
#[derive(Drop)]
pub struct Line {
    alloc: Global,
    bytes: Vec<u8>,
}

impl Model for Line {
    ghost use Rattle.std.specs.Prelude.{ℕ, List};

    ghost Value = { List ℕ };

    ghost view = { λ l. l.bytes.items };
}

impl Line {
    /// No byte. Takes no memory.
    pub fn new(alloc: Global) -> Self
        ensures { result ≡ [] }
    {
        Line {
            alloc,
            bytes: Vec::new(alloc),
        }
    }

    /// Appends the bytes of a text.
    pub fn push(&mut self, text: &str) -> Result<(), AllocError>
        ensures ok { OnOk result (self.new ≡ self.old ++ text.now) }
        ensures err { OnErr result (self.new ≡ self.old) }
    {
        self.bytes.extend_from_slice(text.as_bytes())
    }

    /// Appends a number in decimal, without leading zeros, and behind a `-` where it is below 0.
    pub fn number(&mut self, n: i128) -> Result<(), AllocError>
        ensures ok { OnOk result (self.new ≡ self.old ++ signed_decimal n) }
        ensures err { OnErr result (self.new ≡ self.old) }
    {
        self.bytes
            .extend_from_slice(Buffer::new().format(n).as_bytes())
    }

    /// Appends a number that isn't below 0, and may pass what `number` takes.
    pub fn natural(&mut self, n: u128) -> Result<(), AllocError>
        ensures ok { OnOk result (self.new ≡ self.old ++ decimal n) }
        ensures err { OnErr result (self.new ≡ self.old) }
    {
        self.bytes
            .extend_from_slice(Buffer::new().format(n).as_bytes())
    }

    /// Appends a name: each byte outside 33 to 126, and each backslash, as `\xHH`.
    pub fn name(&mut self, name: &Text) -> Result<(), AllocError>
        ensures ok { OnOk result (self.new ≡ self.old ++ plain_name name.now) }
        ensures err { OnErr result (self.new ≡ self.old) }
    {
        let text = name_text(self.alloc, name.as_slice())?;
        self.bytes.extend_from_slice(text.as_slice())
    }

    /// Appends a method as `CLASS.METHOD:DESC`. Beside what is escaped in each name, a `.` of the class
    /// is `\x2e` and a `:` of the method's name is `\x3a`.
    pub fn target(&mut self, target: &Target) -> Result<(), AllocError>
        ensures ok { OnOk result (self.new ≡ self.old ++ target_text target.now) }
        ensures err { OnErr result (self.new ≡ self.old) }
    {
        let text = target_text(self.alloc, target)?;
        self.bytes.extend_from_slice(text.as_slice())
    }

    /// The bytes so far.
    pub fn bytes(&self) -> &[u8]
        ensures { result.now ≡ self.now }
    {
        self.bytes.as_slice()
    }
}
