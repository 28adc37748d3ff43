//! The bits that a call from C takes.

ghost use Rattle.std.specs.Prelude.{◌≡◌};
ghost use Rattle.pulldown_cmark_c.specs.Calls.{are_known, entities_of};

use cmark_entities::AllEntities;
use cmark_values::{BasicEntities, EntityLookup};

/// A bit has no meaning.
const UNKNOWN_OPTIONS: u32 = 5;

/// The bit for all entity names.
const ALL_ENTITIES: u32 = 1 << 30;

/// The bits that have a meaning: those of `Options`, and [`ALL_ENTITIES`].
const KNOWN: u32 = 0x3_FFFE | ALL_ENTITIES;

/// Whether each of these bits has a meaning.
pub fn are_known(bits: u32) -> bool
    ensures { result ≡ are_known bits }
{
    KNOWN & bits == bits
}

/// The result of a call with a bit that has no meaning: a size of 0, and the status.
pub fn refuse_unknown(size: &mut usize) -> u32
    ensures status { result ≡ 5 }
    ensures size { size.new ≡ 0 }
{
    *size = 0;
    UNKNOWN_OPTIONS
}

/// The entity names that bits ask for: all names of the HTML Standard, or the eleven of `BasicEntities`. It is one type, so that the
/// parser is compiled once for both.
#[derive(Clone, Copy)]
pub struct Entities {
    pub bits: u32,
}

impl EntityLookup for Entities {
    ghost replacement = { λ entities. entities_of entities.bits };

    fn get_entity(&self, name: &str) -> Option<&str> {
        if self.bits & ALL_ENTITIES == ALL_ENTITIES {
            return AllEntities.get_entity(name);
        }
        BasicEntities.get_entity(name)
    }
}
