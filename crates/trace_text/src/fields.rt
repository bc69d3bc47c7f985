//! The fields of a line.

ghost use Rattle.std.specs.Prelude.{◌≡◌, ◌+◌, ◌<◌, ◌≤◌, ◌∷◌, [], IfOk, length, Ok, Err};
ghost use Rattle.std.specs.Option.{option_copied};
ghost use Rattle.text_words.specs.Words.{words_of};
ghost use Rattle.trace_text.specs.Reading.{class_by, field_at, field_of, fields_of};
ghost use Rattle.trace_text.specs.Reading.{first_trace_kind};
ghost use Rattle.trace_text.specs.Reading.{joined_fields, number_below};
ghost use Rattle.trace_text.specs.Steps.{trace_words_behind};

use crate::words::{ARG_LIMIT, Field, JOB_LIMIT, LINE_LIMIT, Limits, Slot};
use std::marker::Model;
use text_words::{cut, read_number};
use tm_base::{Class, CpuId, SCRIPT_TIME_LIMIT, TimerId};
use tm_script::Kind;

/// The most fields of a line.
pub(crate) const MOST_FIELDS: usize = 7;

/// Fields, from the last to the first, so that one more goes to the front.
#[derive(Drop)]
pub(crate) struct FieldList {
    fields: [Field; MOST_FIELDS],
    first: usize,
}

impl Model for FieldList {
    ghost use Rattle.std.specs.Prelude.{List, drop};
    ghost use Rattle.trace_text.specs.declared.words.Field.{Field};
    ghost use Rattle.trace_text.specs.Steps.{IsFieldList};

    ghost Value = { List Field };

    ghost view = { λ f. drop f.first f.fields };

    ghost invariant = { λ f. IsFieldList f.fields f.first };
}

impl FieldList {
    /// No fields.
    fn new() -> FieldList
        ensures { result ≡ [] }
    {
        FieldList {
            fields: [Field::Cpu(CpuId(0)); MOST_FIELDS],
            first: MOST_FIELDS,
        }
    }

    /// These fields behind another one.
    fn behind(self, field: Field) -> FieldList
        requires { length self < MOST_FIELDS }
        ensures { result ≡ field ∷ self }
    {
        let mut fields = self.fields;
        let first = self.first - 1;
        fields[first] = field;
        FieldList { fields, first }
    }

    /// The field at a place; any where there is none.
    pub(crate) fn get(&self, i: usize) -> Field
        requires { i < MOST_FIELDS }
        ensures { result ≡ field_of self.now i }
    {
        let at = self.first + i;
        if at < MOST_FIELDS {
            self.fields[at]
        } else {
            Field::Cpu(CpuId(0))
        }
    }
}

/// A number below a bound.
#[tactic(auto, unfolding(crate::specs::Reading::number_below, text_words::specs::Numbers::number_of))]
fn number_below(bound: u64, word: &[u8]) -> Result<u64, Kind>
    ensures value { result ≡ number_below bound word.now }
    ensures bound { IfOk result (λ n. n < bound) }
{
    let Some(n) = read_number(word) else {
        return Err(Kind::BadNumber);
    };
    if n < bound {
        Ok(n)
    } else {
        Err(Kind::OutOfRange)
    }
}

/// A class of timers.
#[tactic(auto, unfolding(crate::specs::Reading::class_by))]
fn read_class(word: &[u8]) -> Result<Class, Kind>
    ensures { result ≡ class_by word.now }
{
    if word == b"pinned".as_slice() {
        Ok(Class::Pinned)
    } else if word == b"global".as_slice() {
        Ok(Class::Global)
    } else if word == b"deferrable".as_slice() {
        Ok(Class::Deferrable)
    } else {
        Err(Kind::BadLine)
    }
}

/// What a word says at such a place.
fn read_field(limits: Limits, slot: Slot, word: &[u8]) -> Result<Field, Kind>
    ensures { result ≡ field_at limits slot word.now }
{
    Ok(match slot {
        Slot::Cpu => Field::Cpu(CpuId(number_below(u64::from(limits.cpus), word)? as u16)),
        Slot::Timer => Field::Timer(TimerId(number_below(u64::from(limits.timers), word)? as u16)),
        Slot::Class => Field::Class(read_class(word)?),
        Slot::Time => Field::Time(number_below(SCRIPT_TIME_LIMIT, word)?),
        Slot::Job => Field::Job(number_below(JOB_LIMIT, word)? as u8),
        Slot::Arg => Field::Arg(number_below(ARG_LIMIT, word)? as u32),
        Slot::Line => Field::Line(number_below(LINE_LIMIT, word)? as u32),
    })
}

/// Of two kinds of fault in one line the first in their order.
fn first_kind(this: Kind, that: Kind) -> Kind
    ensures { result ≡ first_trace_kind this that }
{
    match this {
        Kind::BadLine => Kind::BadLine,
        Kind::BadNumber => match that {
            Kind::BadLine => Kind::BadLine,
            _ => Kind::BadNumber,
        },
        Kind::OutOfRange => match that {
            Kind::BadLine => Kind::BadLine,
            Kind::BadNumber => Kind::BadNumber,
            _ => Kind::OutOfRange,
        },
        _ => that,
    }
}

/// One field, and those of the words behind it.
fn join(first: Result<Field, Kind>, behind: Result<FieldList, Kind>) -> Result<FieldList, Kind>
    requires { IfOk behind (λ fs. length fs < MOST_FIELDS) }
    ensures { result ≡ joined_fields first behind }
{
    match first {
        Ok(field) => match behind {
            Ok(fields) => Ok(fields.behind(field)),
            Err(kind) => Err(kind),
        },
        Err(kind) => match behind {
            Ok(_) => Err(kind),
            Err(other) => Err(first_kind(kind, other)),
        },
    }
}

/// The first word of a line, and what stands behind its space, where there is one.
pub(crate) fn first_word(line: &[u8]) -> (&[u8], Option<&[u8]>)
    ensures words { words_of line.now ≡ result.0.now ∷ trace_words_behind (option_copied result.1) }
{
    match cut(line, b' ') {
        Some((word, rest)) => (word, Some(rest)),
        None => (line, None),
    }
}

/// What the words say at these places, at most seven, or the first kind of fault that they have.
#[tactic(auto, unfolding(crate::specs::Reading::fields_of))]
pub(crate) fn read_fields(
    limits: Limits,
    slots: &[Slot],
    words: Option<&[u8]>,
) -> Result<FieldList, Kind>
    requires { length slots.now ≤ MOST_FIELDS }
    ensures value { result
        ≡ fields_of limits slots.now (trace_words_behind (option_copied words.entry)) }
    ensures as_many { IfOk result (λ fs. length fs ≡ length slots.now) }
{
    match slots {
        [] => match words {
            None => Ok(FieldList::new()),
            Some(_) => Err(Kind::BadLine),
        },
        [slot, behind @ ..] => {
            let Some(words) = words else {
                return Err(Kind::BadLine);
            };
            let (word, rest) = first_word(words);
            join(
                read_field(limits, *slot, word),
                read_fields(limits, behind, rest),
            )
        }
    }
}
