ghost use Rattle.std.specs.Prelude.{◌≡◌, [], ◌∷◌, ◌++◌, length, slice_get, Contains, MatchOption, OnOk, OnErr, Some};
ghost use Rattle.std.specs.BTreeMap.{IsUnchanged, get_by_text};
ghost use Rattle.cel_value.specs.declared.value.Value.TheVariants.{Text as text_value};
ghost use Rattle.cel_expression.specs.Numbered.{key_of, IsNumbered, Notes, AreTextsNumbered, NotesText};

use crate::key::Key;
use base_containers::Items;
use cel_value::{Value, equal};
use std::alloc::{AllocError, Global};
use std::collections::BTreeMap;
use std::marker::Model;

/// The constants of an image that is being written, which contracts see as the list of them. A text, and a constant that
/// has a key, is found by it, and not by going through all.
#[derive(Drop)]
pub struct Constants {
    values: Items<Value>,
    numbers: BTreeMap<Key, usize>,
    texts: BTreeMap<String, usize>,
}

impl Model for Constants {
    ghost use Rattle.std.specs.Coded.{codes};
    ghost use Rattle.cel_value.specs.contracts.value.Value as cel_value;
    ghost use Rattle.std.specs.BTreeMap.{get_by_text};
    ghost use Rattle.cel_expression.specs.Numbered.{Values, IsNumbered, AreTextsNumbered};

    ghost Value = { Values };

    ghost coded = { Prim.hlevel (codes, cel_value.the_row.coded) };

    ghost view = { λ c. c.values };

    ghost invariant = { λ c. IsNumbered c.values c.numbers × AreTextsNumbered c.values (get_by_text c.texts) };
}

impl Constants {
    pub fn new(alloc: Global) -> Constants
        ensures { result ≡ [] }
    {
        Constants {
            values: Items::new(alloc),
            numbers: BTreeMap::new(alloc),
            texts: BTreeMap::new(alloc),
        }
    }

    pub fn len(&self) -> usize
        ensures { result ≡ length self.now }
    {
        self.values.len()
    }

    /// The number under which a constant is, if it is among these.
    pub fn number_of(&self, value: &Value) -> Option<usize>
        ensures { MatchOption result (¬ Contains self.now value.now) (λ k. slice_get self.now k ≡ Some value.now) }
    {
        if let Value::Text(text) = value {
            return find_text(self.values.as_slice(), &self.texts, text.as_str(), value);
        }
        match key(value) {
            Some(key) => find_by(self.values.as_slice(), &self.numbers, key, value),
            None => find(self.values.as_slice(), value),
        }
    }

    /// One more constant, after the others.
    pub fn push(&mut self, alloc: Global, value: &Value) -> Result<(), AllocError>
        requires { ¬ Contains self.old value.now }
        ensures { OnOk result (self.new ≡ self.old ++ value.now ∷ []) }
    {
        note(&mut self.numbers, value, self.values.len())?;
        note_text(alloc, &mut self.texts, value, self.values.len())?;
        self.values.push(value.copy(alloc)?)
    }

    /// The constants in their order.
    pub fn into_items(self) -> Items<Value>
        ensures { result ≡ self }
    {
        let Constants {
            values,
            numbers: _,
            texts: _,
        } = self;
        values
    }
}

// The key of a constant, if it has one.
fn key(value: &Value) -> Option<Key>
    ensures { result ≡ key_of value.now }
{
    match value {
        Value::Null => Some(Key::Null),
        Value::Bool(truth) => Some(Key::Truth(*truth)),
        Value::Int(number) => Some(Key::Int(*number)),
        Value::Uint(number) => Some(Key::Uint(*number)),
        _ => None,
    }
}

// The number of a value under its key, if it has one.
fn note(numbers: &mut BTreeMap<Key, usize>, value: &Value, number: usize) -> Result<(), AllocError>
    ensures ok { OnOk result (Notes numbers.old numbers.new value.now number) }
    ensures err { OnErr result (IsUnchanged numbers.old numbers.new) }
{
    if let Some(key) = key(value) {
        numbers.insert(key, number)?;
    }
    Ok(())
}

// The number of a text, if the value is one.
fn note_text(
    alloc: Global,
    numbers: &mut BTreeMap<String, usize>,
    value: &Value,
    number: usize,
) -> Result<(), AllocError>
    ensures ok { OnOk result (NotesText (get_by_text numbers.old) (get_by_text numbers.new) value.now number) }
    ensures err { OnErr result (IsUnchanged numbers.old numbers.new) }
{
    if let Value::Text(text) = value {
        numbers.insert(String::from_str(alloc, text.as_str())?, number)?;
    }
    Ok(())
}

// A text among the constants. As with a key, what is under its number is looked at.
fn find_text(
    constants: &[Value],
    numbers: &BTreeMap<String, usize>,
    text: &str,
    value: &Value,
) -> Option<usize>
    requires numbered { AreTextsNumbered constants.now (get_by_text numbers.now) }
    requires text { value.now ≡ text_value text.now }
    ensures { MatchOption result (¬ Contains constants.now value.now) (λ k. slice_get constants.now k ≡ Some value.now) }
{
    let number = *numbers.get(text)?;
    if equal(constants.get(number)?, value) {
        return Some(number);
    }
    None
}

// A constant by its key. A number may be noted for a value that was not put, if memory did not suffice, so what is
// there is looked at.
fn find_by(
    constants: &[Value],
    numbers: &BTreeMap<Key, usize>,
    key: Key,
    value: &Value,
) -> Option<usize>
    requires numbered { IsNumbered constants.now numbers.now }
    requires key { key_of value.now ≡ Some key }
    ensures { MatchOption result (¬ Contains constants.now value.now) (λ k. slice_get constants.now k ≡ Some value.now) }
{
    let number = *numbers.get(&key)?;
    if equal(constants.get(number)?, value) {
        return Some(number);
    }
    None
}

// A constant by going through all.
fn find(constants: &[Value], value: &Value) -> Option<usize>
    ensures { MatchOption result (¬ Contains constants.now value.now) (λ k. slice_get constants.now k ≡ Some value.now) }
{
    for (number, constant) in constants.iter().enumerate() {
        if equal(constant, value) {
            return Some(number);
        }
    }
    None
}
