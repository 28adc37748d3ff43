//! The look-up of all entity names, by a search by halves.

ghost use Rattle.std.specs.Prelude.{◌≡◌, ◌+◌, drop, option_copied, take};
ghost use Rattle.cmark_entities.specs.Names.{all_entity};
ghost use Rattle.cmark_entities.specs.Table.{name_in, text_in};
ghost use Rattle.cmark_entities.specs.declared.table.TheConstants.{BYTES};

use crate::table::{BYTES, ROWS};
use cmark_values::EntityLookup;

/// The 2,125 names of the list of the HTML Standard ("Named character references") that end with a semicolon there.
#[derive(Clone, Copy, Debug, PartialEq, Eq)]
pub struct AllEntities;

impl EntityLookup for AllEntities {
    ghost replacement = { λ _. all_entity };

    fn get_entity(&self, name: &str) -> Option<&str> {
        text_of_name(name)
    }
}

/// The text of a name, or `None` if the list has no such name.
// Not inlined: most texts have few entities, and the code that reads other bytes stays small.
#[inline(never)]
fn text_of_name(name: &str) -> Option<&'static str>
    ensures { option_copied result ≡ all_entity name.now }
{
    let name = name.as_bytes();
    let Ok(at) = ROWS.binary_search_by(|row| name_of(row).cmp(name)) else {
        return None;
    };
    str::from_utf8(text_of(&ROWS[at])).ok()
}

/// The name of a row.
fn name_of(row: &(u16, u8, u8)) -> &'static [u8]
    ensures { result.now ≡ name_in row.now }
{
    let (start, name_len, _) = *row;
    part(start as usize, name_len as usize)
}

/// The text of a row.
fn text_of(row: &(u16, u8, u8)) -> &'static [u8]
    ensures { result.now ≡ text_in row.now }
{
    let (start, name_len, text_len) = *row;
    part(start as usize + name_len as usize, text_len as usize)
}

/// The bytes of the table from `start` on, at most `len` of them.
fn part(start: usize, len: usize) -> &'static [u8]
    ensures { result.now ≡ take len (drop start BYTES) }
{
    let following = &BYTES[start.min(BYTES.len())..];
    &following[..len.min(following.len())]
}
