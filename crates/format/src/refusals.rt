// Why a call is refused: the first question that says no, and the numbers of all of them.
ghost use Rattle.std.specs.Prelude.{◌≡◌};
ghost use Rattle.format.specs.Refusals.{question_no, refusal_no};

// The questions of a file, in their order. They are asked again of what an edit makes.
#[derive(Clone, Copy)]
pub enum Question {
    // The used length is more than the buffer's or than a file may have.
    Length,
    // A byte is not allowed, or the last one is no newline.
    Byte,
    // A line has no form.
    Line,
    // A limit is passed.
    Limit,
    // A record with a `%` name has no `%rec`, or several.
    Rec,
    // A descriptor is not well formed, or two sets have one name.
    Descriptor,
    // A typedef or a `%type` field is not well formed.
    Type,
    // A record has a prohibited name, or one that is not allowed.
    Prohibited,
    NotAllowed,
    // A mandatory name or the key is missing in a record, a unique one or the key is repeated.
    Missing,
    Repeated,
    // A value does not meet its type.
    Value,
    // Two records of a set have the same key.
    Key,
    // A set's size is not met.
    Size,
    // Two fields of a singular name have the same value in a set.
    Singular,
}

impl Question {
    pub fn number(self) -> u32
        ensures { result ≡ question_no self }
    {
        match self {
            Question::Length => 1,
            Question::Byte => 2,
            Question::Line => 3,
            Question::Limit => 4,
            Question::Rec => 5,
            Question::Descriptor => 6,
            Question::Type => 7,
            Question::Prohibited => 8,
            Question::NotAllowed => 9,
            Question::Missing => 10,
            Question::Repeated => 11,
            Question::Value => 12,
            Question::Key => 13,
            Question::Size => 14,
            Question::Singular => 30,
        }
    }
}

#[derive(Clone, Copy)]
pub enum Refusal {
    // The file fails a question.
    File(Question),
    // The request is not of the form of one.
    Form,
    // There is no such set, no such record in it, no such field in that.
    Set,
    Record,
    Field,
    // The record would be left without a field.
    Emptied,
    // A name or a value is not legal.
    Illegal,
    // A name that an insert omits has no number; asked between the one above and the one below.
    Numberless,
    // The result is larger than the buffer or than a file may be.
    Large,
    // What an edit would make fails a question.
    Result(Question),
    // The text is longer than the buffer that it is written to.
    Room,
    // The list has fewer entries than the file has sets.
    List,
    // A run is not made of requests, has too many, or its list of answers is too short.
    Run,
    // A value of a field that is to be added up does not count.
    Uncounted,
    // An expression is not of the form of one.
    Expression,
    // The list is too short for the numbers of all records that are found.
    Numbers,
    // The file whose records are to be brought over fails the check, or has a set that is not there.
    Spare,
    SpareSet,
}

impl Refusal {
    pub fn number(self) -> u32
        ensures { result ≡ refusal_no self }
    {
        match self {
            Refusal::File(q) => q.number(),
            Refusal::Form => 20,
            Refusal::Set => 21,
            Refusal::Record => 22,
            Refusal::Field => 23,
            Refusal::Emptied => 24,
            Refusal::Illegal => 25,
            Refusal::Numberless => 31,
            Refusal::Large => 26,
            Refusal::Result(q) => 100 + q.number(),
            Refusal::Room => 27,
            Refusal::List => 28,
            Refusal::Run => 29,
            Refusal::Uncounted => 32,
            Refusal::Expression => 33,
            Refusal::Numbers => 34,
            Refusal::Spare => 35,
            Refusal::SpareSet => 36,
        }
    }
}

// A file's refusal is its question's, so that `?` hands it on.
impl From<Question> for Refusal {
    ghost use Rattle.format.specs.declared.refusals.Refusal.TheVariants.{File};

    ghost from_gives = { λ q r. r ≡ File q };

    fn from(question: Question) -> Refusal {
        Refusal::File(question)
    }
}
