//! The fields of an object: the description itself, or an entry of one of its lists.

ghost use Rattle.std.specs.Prelude.{◌≡◌, map, Some, None, [], IfOk, option_map, option_to_list};
ghost use Rattle.serde_json.specs.View.{view};
ghost use Rattle.desc_read.specs.Faults.{Gives, GivesAs, IsFault, field_place, list_name};
ghost use Rattle.desc_read.specs.Checks.{number, text, list_of, list_up_to};
ghost use Rattle.desc_read.specs.Objects.{field, placed, default, in_range, object};

use crate::fault::{DescFault, DescKind, Flaw};
use crate::numbers::{Span, number_of};
use crate::place::{Entry, EntryList, place_of_field, place_of_object};
use crate::texts::{TextRule, text_of};
use crate::unknown_fields::unknown_name;
use lego_base::{Bytes, NoMemory, Seq, Text};
use serde_json::Value;
use std::alloc::Global;

/// Reads an object: the description itself, or an entry of one of its lists.
#[derive(Drop)]
pub(crate) struct ObjectReader<'v> {
    pub(crate) alloc: Global,
    pub(crate) value: &'v Value,
    pub(crate) entry: Option<Entry>,
}

impl<'v> ObjectReader<'v> {
    /// Refuses a value that isn't an object, and then the first field in byte order that isn't known.
    pub(crate) fn only(&self, known: &[&str]) -> Result<(), DescFault>
        ensures { Gives result (object self.now.entry (map (λ k. k.now) known.now) (view self.now.value.now)) }
    {
        match self.value.as_object() {
            None => Err(DescFault::at(DescKind::Object, place_of_object(self.alloc, self.entry))),
            Some(members) => match unknown_name(members, known) {
                Some(name) => Err(self.fault(name, DescKind::Unknown)),
                None => Ok(()),
            },
        }
    }

    /// A whole number.
    pub(crate) fn number(
        &self,
        name: &str,
        span: Span,
        other: Option<u32>,
    ) -> Result<u32, DescFault>
        ensures { Gives result (field self.now.entry (view self.now.value.now) name.now (number span.0 span.1) other) }
    {
        match self.value.get(name) {
            Some(value) => self.placed(name, number_of(value, span)),
            None => self.default(name, other),
        }
    }

    /// A list of whole numbers, their count within a span of its own. If the field is absent: `other`.
    pub(crate) fn numbers(
        &self,
        name: &str,
        count: Span,
        span: Span,
        other: &[u32],
    ) -> Result<Seq<u32>, DescFault>
        ensures { Gives result (field self.now.entry (view self.now.value.now) name.now (list_of count.0 count.1 (number span.0 span.1)) (Some other.now)) }
    {
        match self.value.get(name) {
            Some(value) => self.numbers_of(name, value, count, span),
            None => Ok(Seq::from_vec(Vec::from_slice(self.alloc, other)?)),
        }
    }

    // The whole numbers of a list, a flaw as a fault at the field.
    fn numbers_of(
        &self,
        name: &str,
        value: &Value,
        count: Span,
        span: Span,
    ) -> Result<Seq<u32>, DescFault>
        ensures { Gives result (placed (field_place self.now.entry name.now) (list_of count.0 count.1 (number span.0 span.1) (view value.now))) }
    {
        let Some(list) = value.as_array() else {
            return Err(self.fault(name, DescKind::Kind));
        };
        let items = list.as_slice();
        let mut numbers = Vec::with_capacity(self.alloc, items.len())?;
        let mut fits = count.has(items.len() as u64);
        for item in items {
            match number_of(item, span) {
                Ok(n) => numbers.push(n)?,
                Err(Flaw::OutOfRange) => fits = false,
                Err(Flaw::WrongKind) => return Err(self.fault(name, DescKind::Kind)),
            }
        }
        if fits {
            Ok(Seq::from_vec(numbers))
        } else {
            Err(self.fault(name, DescKind::Range))
        }
    }

    /// A text.
    pub(crate) fn text(&self, name: &str, rule: TextRule) -> Result<Text, DescFault>
        ensures { Gives result (field self.now.entry (view self.now.value.now) name.now (text rule) None) }
    {
        match self.value.get(name) {
            Some(value) => match text_of(value, rule) {
                Ok(text) => Ok(Text::from_str(self.alloc, text)?),
                Err(flaw) => Err(self.fault(name, flaw.kind())),
            },
            None => Err(self.fault(name, DescKind::Absent)),
        }
    }

    /// The bytes of a text.
    pub(crate) fn bytes(&self, name: &str, rule: TextRule) -> Result<Bytes, DescFault>
        ensures { Gives result (field self.now.entry (view self.now.value.now) name.now (text rule) None) }
    {
        let text = self.text(name, rule)?;
        Ok(Bytes::from_slice(self.alloc, text.as_str().as_bytes())?)
    }

    /// A list of arguments, their count within a span. If the field is absent: `other` alone, or nothing.
    pub(crate) fn texts(
        &self,
        name: &str,
        count: Span,
        other: Option<&str>,
    ) -> Result<Seq<Bytes>, DescFault>
        ensures { Gives result (field self.now.entry (view self.now.value.now) name.now (list_of count.0 count.1 (text TextRule.Argument)) (Some (option_to_list (option_map (λ s. s.now) other.entry)))) }
    {
        match self.value.get(name) {
            Some(value) => self.texts_of(name, value, count),
            None => Ok(alone(self.alloc, other)?),
        }
    }

    // The arguments of a list, a flaw as a fault at the field.
    fn texts_of(&self, name: &str, value: &Value, count: Span) -> Result<Seq<Bytes>, DescFault>
        ensures { Gives result (placed (field_place self.now.entry name.now) (list_of count.0 count.1 (text TextRule.Argument) (view value.now))) }
    {
        let Some(list) = value.as_array() else {
            return Err(self.fault(name, DescKind::Kind));
        };
        let items = list.as_slice();
        let mut texts = Vec::with_capacity(self.alloc, items.len())?;
        let mut fits = count.has(items.len() as u64);
        for item in items {
            match text_of(item, TextRule::Argument) {
                Ok(text) => texts.push(Bytes::from_slice(self.alloc, text.as_bytes())?)?,
                Err(Flaw::OutOfRange) => fits = false,
                Err(Flaw::WrongKind) => return Err(self.fault(name, DescKind::Kind)),
            }
        }
        if fits {
            Ok(Seq::from_vec(texts))
        } else {
            Err(self.fault(name, DescKind::Range))
        }
    }

    /// The entries of a list with at most `most` entries.
    pub(crate) fn entries(&self, list: EntryList, most: usize) -> Result<&'v [Value], DescFault>
        ensures { GivesAs (λ values. map view values.now) result (field self.now.entry (view self.now.value.now) (list_name list) (list_up_to most) (Some [])) }
    {
        let name = list.name();
        match self.value.get(name) {
            Some(value) => match value.as_array() {
                Some(values) => {
                    if values.len() <= most {
                        Ok(values.as_slice())
                    } else {
                        Err(self.fault(name, DescKind::Range))
                    }
                }
                None => Err(self.fault(name, DescKind::Kind)),
            },
            None => Ok(&[]),
        }
    }

    /// A further condition on a field that was read.
    pub(crate) fn in_range(&self, name: &str, good: bool) -> Result<(), DescFault>
        ensures { Gives result (in_range self.now.entry name.now good) }
    {
        if good {
            Ok(())
        } else {
            Err(self.fault(name, DescKind::Range))
        }
    }

    // What a check found, with a flaw as a fault at the field.
    fn placed<T>(&self, name: &str, found: Result<T, Flaw>) -> Result<T, DescFault>
        ensures { Gives result (placed (field_place self.now.entry name.now) found) }
    {
        match found {
            Ok(value) => Ok(value),
            Err(flaw) => Err(self.fault(name, flaw.kind())),
        }
    }

    // The value of a field that is absent.
    fn default<T>(&self, name: &str, other: Option<T>) -> Result<T, DescFault>
        ensures { Gives result (default (field_place self.now.entry name.now) other) }
    {
        match other {
            Some(value) => Ok(value),
            None => Err(self.fault(name, DescKind::Absent)),
        }
    }

    /// The fault at a field.
    pub(crate) fn fault(&self, name: &str, kind: DescKind) -> DescFault
        ensures { IsFault kind (field_place self.now.entry name.now) result }
    {
        DescFault::at(kind, place_of_field(self.alloc, self.entry, name))
    }
}

// The list of one text, or of none.
fn alone(alloc: Global, text: Option<&str>) -> Result<Seq<Bytes>, NoMemory>
    ensures { IfOk result (λ texts. texts ≡ option_to_list (option_map (λ s. s.now) text.entry)) }
{
    let mut texts = Seq::new(alloc);
    if let Some(text) = text {
        texts.push(Bytes::from_slice(alloc, text.as_bytes())?)?;
    }
    Ok(texts)
}
