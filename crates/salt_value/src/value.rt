//! Values.
use crate::fault::ValueFault;
use crate::fields::Pairs;
use crate::limits::{MOST_VALUE_BYTES, MOST_VALUE_LEVELS};
use crate::text::Text;
use crate::{copy, fits, reading, writing};
use std::alloc::{AllocError, Global};

/// A list of values, which contracts see as that list.
pub type Items = sqlite_items::Items<Value>;

/// A map from keys to values, which contracts see as the list of its pairs.
pub type Fields = Pairs<Value>;

/// An argument, a result or a piece of data: what YAML writes as null, a flag, a whole number,
/// a text, a list or a map.
#[derive(Drop)]
pub enum Value {
    Null,
    Flag(bool),
    Int(i64),
    Str(Text),
    List(Items),
    Map(Fields),
}

impl Value {
    ghost use Rattle.std.specs.Prelude.{◌≡◌, ◌≢◌, ◌≤◌, ◌↔◌, ◌++◌, false, IsTrue, length, IfOk, IfErr, OnOk, OnErr};
    ghost use Rattle.std.specs.Option.{option_copied};
    ghost use Rattle.salt_value.specs.Scalar.{scalar_text};
    ghost use Rattle.salt_value.specs.Child.{child};
    ghost use Rattle.salt_value.specs.Spelling.{bytes};
    ghost use Rattle.salt_value.specs.WellFormed.{ValueFits};
    ghost use Rattle.salt_value.specs.FitTest as test;
    ghost use Rattle.salt_value.specs.Readers.{Answers};
    ghost use Rattle.salt_value.specs.Reading.{BeginsWith, AnswersValue, AnswersFault};
    ghost use Rattle.salt_value.specs.Decoding.{read_at};
    ghost use Rattle.salt_value.specs.FirstFault.{FirstFault};
    ghost use Rattle.salt_value.specs.declared.fault.ValueFault.{ValueFault};

    /// An equal value in memory of its own.
    pub fn copy(&self, alloc: Global) -> Result<Value, AllocError>
        ensures { IfOk result (λ copy. copy ≡ self.now) }
    {
        copy::copy(alloc, self)
    }

    /// The text of a scalar: `None`, `True` or `False` (as Python writes them), a number in decimal
    /// digits with `-` in front of a negative one, or the text itself. A list and a map have none.
    pub fn scalar_text(&self, alloc: Global) -> Result<Option<Text>, AllocError>
        ensures { IfOk result (λ text. text ≡ scalar_text self.now) }
    {
        let text = match self {
            Value::Null => String::from_str(alloc, "None")?,
            Value::Flag(true) => String::from_str(alloc, "True")?,
            Value::Flag(false) => String::from_str(alloc, "False")?,
            Value::Int(number) => number.to_string(alloc)?,
            Value::Str(text) => return Ok(Some(text.copy()?)),
            Value::List(_) | Value::Map(_) => return Ok(None),
        };
        Ok(Some(Text::new(text)))
    }

    /// The value under exactly this key, lent. None where the value is no map or has no such key.
    pub fn at(&self, key: &str) -> Option<&Value>
        ensures { option_copied result ≡ child key.now self.now }
    {
        match self {
            Value::Map(fields) => fields.get(key.as_bytes()),
            _ => None,
        }
    }

    /// Whether the value is within the limits, which are this project's own: its depth is at most 32,
    /// where a scalar has depth 1, and its spelling has at most 65,536 bytes.
    #[tactic(auto, using(crate::proofs::FitTests::fits_by))]
    pub fn fits(&self) -> bool
        ensures ok { IsTrue result ↔ ValueFits self.now }
        // A value that is refused is too deep or too large.
        ensures large { result ≡ false → test.IsPastLimits self.now }
        ensures exact { result ≡ test.fits self.now }
    {
        fits::after(self, MOST_VALUE_LEVELS, MOST_VALUE_BYTES).is_some()
    }

    /// Appends the spelling of a value that is within the limits. An error leaves all as it was.
    pub fn write(&self, out: &mut Vec<u8>) -> Result<(), AllocError>
        requires { ValueFits self.now }
        ensures ok { OnOk result (out.new.items ≡ out.old.items ++ bytes self.now) }
        ensures err { OnErr result (out.new.items ≡ out.old.items) }
    {
        writing::append(out, self)
    }

    /// The value that begins the input, and how many bytes it takes. Its first 65,536 bytes are looked
    /// at, and the first fault from the left is answered.
    pub fn read(alloc: Global, input: &[u8]) -> Result<(Value, usize), ValueFault>
        // What is read is spelled so, and is within the limits.
        ensures ok { IfOk result (BeginsWith input.now) }
        ensures within { IfOk result (λ x. x.1 ≤ length input.now) }
        // What is spelled so is read, whatever follows it, unless memory runs out.
        ensures complete { AnswersValue input.now result }
        // A fault that is answered is the first one from the left.
        ensures fault { IfErr result (λ e. e ≢ ValueFault.NoMemory → FirstFault input.now e) }
        // The first fault is answered, unless memory runs out.
        ensures first { AnswersFault input.now result }
        // All of this as a function.
        ensures exact { Answers ValueFault.NoMemory result (read_at input.now) }
    {
        reading::whole(alloc, input)
    }
}
