// What every crate shares: byte classes and their table, the limits, and why a call is refused. The definitions of the format stand in specs/, the laws about them in proofs/.
#![tactic(auto)]

ghost use Rattle.std.specs.Prelude.{◌≡◌, ◌&&◌, leb};
ghost use Rattle.format.specs.Calls.{answered, number_in};
ghost use Rattle.format.specs.Limits.{file_bytes, name_bytes, value_bytes, record_fields, typedefs, type_fields, list_words};

mod bytes;
mod refusals;

pub use bytes::{Class, Classes};
pub use refusals::{Question, Refusal};

// The number of an answer's refusal, 0 if there is none.
pub fn number_in(answer: Result<usize, Refusal>) -> u32
    ensures { result ≡ number_in (answered answer) }
{
    match answer {
        Ok(_) => 0,
        Err(refusal) => refusal.number(),
    }
}

// A set in a directory of sets: the first byte of its descriptor's block, how many records it has, and the byte behind its last record's block.
#[repr(C)]
#[derive(Drop)]
pub struct Entry {
    pub place: usize,
    pub count: usize,
    pub end: usize,
}

// A file, by its used length.
#[derive(Drop)]
pub struct File {
    pub used: usize,
}

impl File {
    pub const BYTES: usize = 65536;

    pub fn new(used: usize) -> Self
        ensures { result.used ≡ used }
    {
        Self { used }
    }

    // Is the used length at most the buffer's and the limit?
    pub fn fits(self, room: usize) -> bool
        ensures { result ≡ (leb self.used room && leb self.used file_bytes) }
    {
        if self.used > room {
            return false;
        }
        self.used <= File::BYTES
    }
}

// A record, by its number of fields, its longest name and its longest value.
#[derive(Drop)]
pub struct Record {
    pub fields: usize,
    pub name: usize,
    pub value: usize,
}

impl Record {
    pub const FIELDS: usize = 256;

    pub const NAME: usize = 64;

    pub const VALUE: usize = 4096;

    pub fn new(fields: usize, name: usize, value: usize) -> Self
        ensures { result ≡ record { fields = fields; name = name; value = value } }
    {
        Self {
            fields,
            name,
            value,
        }
    }

    pub fn fits(self) -> bool
        ensures { result ≡ (leb self.fields record_fields && leb self.name name_bytes && leb self.value value_bytes) }
    {
        if self.fields > Record::FIELDS {
            return false;
        }
        if self.name > Record::NAME {
            return false;
        }
        self.value <= Record::VALUE
    }
}

// A descriptor, by its numbers of typedefs, of `%type` fields and of words in each list of names.
#[derive(Drop)]
pub struct Descriptor {
    pub typedefs: usize,
    pub types: usize,
    pub mandatory: usize,
    pub prohibited: usize,
    pub allowed: usize,
    pub unique: usize,
    pub singular: usize,
    pub auto: usize,
}

impl Descriptor {
    pub const COUNT: usize = 64;

    pub const TYPEDEFS: usize = 32;

    pub const TYPES: usize = 32;

    pub const WORDS: usize = 64;

    pub fn new() -> Self
        ensures { (result.typedefs ≡ 0) × (result.types ≡ 0) × (result.mandatory ≡ 0) × (result.prohibited ≡ 0) × (result.allowed ≡ 0) × (result.unique ≡ 0) × (result.singular ≡ 0) × (result.auto ≡ 0) }
    {
        Self {
            typedefs: 0,
            types: 0,
            mandatory: 0,
            prohibited: 0,
            allowed: 0,
            unique: 0,
            singular: 0,
            auto: 0,
        }
    }

    pub fn fits(self) -> bool
        ensures { result ≡ (leb self.typedefs typedefs && leb self.types type_fields && leb self.mandatory list_words && leb self.prohibited list_words && leb self.allowed list_words && leb self.unique list_words && leb self.singular list_words && leb self.auto list_words) }
    {
        if self.typedefs > Descriptor::TYPEDEFS {
            return false;
        }
        if self.types > Descriptor::TYPES {
            return false;
        }
        if self.mandatory > Descriptor::WORDS {
            return false;
        }
        if self.prohibited > Descriptor::WORDS {
            return false;
        }
        if self.allowed > Descriptor::WORDS {
            return false;
        }
        if self.unique > Descriptor::WORDS {
            return false;
        }
        if self.singular > Descriptor::WORDS {
            return false;
        }
        self.auto <= Descriptor::WORDS
    }
}
