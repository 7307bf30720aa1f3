// The forms that JSON values have, and their readers.
ghost use Rattle.std.specs.Prelude.{◌≡◌, Option};
ghost use Rattle.serde_json.specs.Data.{Data};
ghost use Rattle.json_documents.specs.Documents.{view};
ghost use Rattle.spec_base.specs.Refusal.{Reads};
ghost use Rattle.json_forms.specs.Form.{whole, flag, text, specifier, list_of, url_of};

use json_documents::Json;
use spec_base::{Items, ModuleSpecifier, Refusal, Text};
use std::alloc::Global;
use url::{ParseError, Url};

/// The value hasn't the form.
#[derive(Clone, Copy, PartialEq, Eq, Debug)]
pub struct Misfit;

/// What JSON values of one form stand for.
pub trait Form: Sized + Drop {
    /// The value that the data stands for, where it has this form.
    ghost form: { Data → Option Self };

    /// The value that the JSON stands for, or `Misfit` exactly where it hasn't this form.
    fn read(alloc: Global, value: &Json<'_, '_>) -> Result<Self, Refusal<Misfit>>
        ensures { Reads result (form (view value.now)) };
}

impl Form for u64 {
    ghost form = { whole };

    fn read(_alloc: Global, value: &Json<'_, '_>) -> Result<u64, Refusal<Misfit>> {
        match value.as_u64() {
            Some(number) => Ok(number),
            None => Err(Refusal::Is(Misfit)),
        }
    }
}

impl Form for usize {
    ghost form = { whole };

    fn read(_alloc: Global, value: &Json<'_, '_>) -> Result<usize, Refusal<Misfit>> {
        match value.as_u64() {
            Some(number) => Ok(number as usize),
            None => Err(Refusal::Is(Misfit)),
        }
    }
}

impl Form for bool {
    ghost form = { flag };

    fn read(_alloc: Global, value: &Json<'_, '_>) -> Result<bool, Refusal<Misfit>> {
        match value.as_bool() {
            Some(flag) => Ok(flag),
            None => Err(Refusal::Is(Misfit)),
        }
    }
}

impl Form for Text {
    ghost form = { text };

    fn read(alloc: Global, value: &Json<'_, '_>) -> Result<Text, Refusal<Misfit>> {
        match value.as_str() {
            Some(text) => Ok(Text::from_str(alloc, text)?),
            None => Err(Refusal::Is(Misfit)),
        }
    }
}

impl Form for ModuleSpecifier {
    ghost form = { specifier };

    fn read(alloc: Global, value: &Json<'_, '_>) -> Result<ModuleSpecifier, Refusal<Misfit>> {
        match value.as_str() {
            Some(text) => read_url(alloc, text),
            None => Err(Refusal::Is(Misfit)),
        }
    }
}

impl<T: Form> Form for Items<T> {
    ghost form = { list_of T.form };

    fn read(alloc: Global, value: &Json<'_, '_>) -> Result<Items<T>, Refusal<Misfit>> {
        let Some(values) = value.as_array() else {
            return Err(Refusal::Is(Misfit));
        };
        let mut items = Vec::with_capacity(alloc, values.len())?;
        for item in values {
            items.push(T::read(alloc, &item)?)?;
        }
        Ok(items.into())
    }
}

/// The URL that a text is (WHATWG URL Standard), or `Misfit` exactly where it is none. A text whose URL
/// would take 4 GB or more counts as want of memory.
#[tactic(auto, unfolding(crate::specs::Form::url_of))]
pub fn read_url(alloc: Global, text: &str) -> Result<Url, Refusal<Misfit>>
    ensures { Reads result (url_of text.now) }
{
    match Url::parse(alloc, text) {
        Ok(url) => Ok(url),
        Err(ParseError::OutOfMemory) | Err(ParseError::Overflow) => Err(Refusal::Memory),
        Err(_) => Err(Refusal::Is(Misfit)),
    }
}
