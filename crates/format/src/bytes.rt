// The classes of bytes, and the table that gives each byte its class.
ghost use Rattle.std.specs.Prelude.{◌≡◌};
ghost use Rattle.format.specs.Bytes.{class_of, class_table};
ghost use Rattle.format.specs.Lines.{is_first, is_later};

// The classes of bytes. Bytes of no class are not allowed in a file. They are numbers, since the
// table of them is a text of bytes.
#[derive(Drop)]
pub struct Class {}

impl Class {
    pub const NONE: u8 = 0;

    pub const LETTER: u8 = 1;

    pub const DIGIT: u8 = 2;

    pub const BLANK: u8 = 3;

    pub const NEWLINE: u8 = 4;

    pub const UNDERSCORE: u8 = 5;

    pub const PERCENT: u8 = 6;

    pub const OTHER: u8 = 7;
}

// The class of each byte, 16 bytes a line.
const CLASSES: [u8; 256] = *b"\x00\x00\x00\x00\x00\x00\x00\x00\x00\x03\x04\x00\x00\x00\x00\x00\
    \x00\x00\x00\x00\x00\x00\x00\x00\x00\x00\x00\x00\x00\x00\x00\x00\
    \x03\x07\x07\x07\x07\x06\x07\x07\x07\x07\x07\x07\x07\x07\x07\x07\
    \x02\x02\x02\x02\x02\x02\x02\x02\x02\x02\x07\x07\x07\x07\x07\x07\
    \x07\x01\x01\x01\x01\x01\x01\x01\x01\x01\x01\x01\x01\x01\x01\x01\
    \x01\x01\x01\x01\x01\x01\x01\x01\x01\x01\x01\x07\x07\x07\x07\x05\
    \x07\x01\x01\x01\x01\x01\x01\x01\x01\x01\x01\x01\x01\x01\x01\x01\
    \x01\x01\x01\x01\x01\x01\x01\x01\x01\x01\x01\x07\x07\x07\x07\x00\
    \x07\x07\x07\x07\x07\x07\x07\x07\x07\x07\x07\x07\x07\x07\x07\x07\
    \x07\x07\x07\x07\x07\x07\x07\x07\x07\x07\x07\x07\x07\x07\x07\x07\
    \x07\x07\x07\x07\x07\x07\x07\x07\x07\x07\x07\x07\x07\x07\x07\x07\
    \x07\x07\x07\x07\x07\x07\x07\x07\x07\x07\x07\x07\x07\x07\x07\x07\
    \x07\x07\x07\x07\x07\x07\x07\x07\x07\x07\x07\x07\x07\x07\x07\x07\
    \x07\x07\x07\x07\x07\x07\x07\x07\x07\x07\x07\x07\x07\x07\x07\x07\
    \x07\x07\x07\x07\x07\x07\x07\x07\x07\x07\x07\x07\x07\x07\x07\x07\
    \x07\x07\x07\x07\x07\x07\x07\x07\x07\x07\x07\x07\x07\x07\x07\x07";

// The table, for whoever asks for the classes of many bytes: an array that is copied once is
// cheaper than a constant that is indexed.
#[derive(Drop)]
pub struct Classes {
    table: [u8; 256],
    ghost right: { table ≡ class_table },
}

impl Classes {
    pub fn new() -> Self {
        Self { table: CLASSES }
    }

    pub fn class(&self, b: u8) -> u8
        ensures { result ≡ class_of b }
    {
        self.table[b as usize]
    }

    // May a name begin with this byte?
    pub fn is_first(&self, b: u8) -> bool
        ensures { result ≡ is_first b }
    {
        let k = self.class(b);
        k == Class::LETTER || k == Class::PERCENT
    }

    // May a name go on with this byte?
    pub fn is_later(&self, b: u8) -> bool
        ensures { result ≡ is_later b }
    {
        let k = self.class(b);
        if k == Class::LETTER {
            return true;
        }
        k == Class::DIGIT || k == Class::UNDERSCORE
    }
}
