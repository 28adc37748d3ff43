//! The file of entities: a JSON object (RFC 8259) of names and their texts.

ghost use Rattle.std.specs.Prelude.{◌≡◌, ◌⊎◌, ℕ, List, IfOk, IfErr};
ghost use Rattle.serde_json.specs.Data.{Members};
ghost use Rattle.serde_json.specs.Errors.{IsMemory};
ghost use Rattle.serde_json.specs.View.{view};
ghost use Rattle.cmark_grammar.specs.Entities.{basic_entity};
ghost use Rattle.program_io.specs.declared.fault.RunFault.TheVariants.{Entities, Memory};
ghost use Rattle.program_settings.specs.Entities.{Spells, entity_of, holds_texts};
ghost use Rattle.program_settings.specs.LookUp.{looked_up};

use cmark_values::{BasicEntities, EntityLookup};
use program_io::RunFault;
use serde_json::Value;
use std::alloc::Global;

/// The names of a file, and after them those of [`BasicEntities`].
#[derive(Drop)]
pub struct NamedEntities {
    /// The object of the file, or null if there is no file.
    file: Value,
    basic: BasicEntities,
}

impl NamedEntities {
    /// The names of `BasicEntities` alone.
    pub fn basic() -> NamedEntities
        ensures { (name : List ℕ) → looked_up result name ≡ basic_entity name }
    {
        NamedEntities {
            file: Value::Null,
            basic: BasicEntities,
        }
    }
}

impl EntityLookup for NamedEntities {
    ghost replacement = { looked_up };

    fn get_entity(&self, name: &str) -> Option<&str> {
        match self.file.get(name).and_then(Value::as_str) {
            Some(text) => Some(text),
            None => self.basic.get_entity(name),
        }
    }
}

/// Returns whether a value is an object whose values are all texts.
fn is_object_of_texts(value: &Value) -> bool
    ensures { result ≡ holds_texts (view value.now) }
{
    let Some(members) = value.as_object() else {
        return false;
    };
    for member in members.values() {
        if !member.is_string() {
            return false;
        }
    }
    true
}

/// Returns the fault of a text that is not read as JSON.
fn json_fault(error: &serde_json::Error) -> RunFault
    ensures memory { IsMemory error.now → result ≡ Memory }
    ensures bad { ¬ IsMemory error.now → result ≡ Entities }
{
    if error.is_memory() {
        return RunFault::Memory;
    }
    RunFault::Entities
}

/// Reads a file of entities from its bytes: one JSON object whose values are all texts, each for the name that is its key.
/// A name that occurs twice has its last text.
///
/// Returns `Entities` if the bytes are no such object, and `Memory` if memory was refused.
pub fn read_entities(alloc: Global, bytes: &[u8]) -> Result<NamedEntities, RunFault>
    ensures names { IfOk result (λ found. (names : Members) × Spells bytes.now names
        × ((name : List ℕ) → looked_up found name ≡ entity_of names name)) }
    ensures fault { IfErr result (λ fault. (fault ≡ Memory)
        ⊎ ((fault ≡ Entities) × ((names : Members) → ¬ (Spells bytes.now names)))) }
{
    let Ok(text) = str::from_utf8(bytes) else {
        return Err(RunFault::Entities);
    };
    let file = match Value::from_str(alloc, text) {
        Ok(file) => file,
        Err(error) => return Err(json_fault(&error)),
    };
    if !is_object_of_texts(&file) {
        return Err(RunFault::Entities);
    }
    Ok(NamedEntities {
        file,
        basic: BasicEntities,
    })
}
