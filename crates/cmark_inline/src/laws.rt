//! Theorems about the text of a leaf and the grammar's leaf. Each is the contract of a function that does nothing.

ghost use Rattle.std.specs.Prelude.{◌≡◌, ◌<◌, ◌≤◌, ◌-◌, ℕ, suc, false, List, drop, length};
ghost use Rattle.cmark_grammar.specs.Event.{Ranged};
ghost use Rattle.cmark_grammar.specs.InlineTokens.{item_at, token};
ghost use Rattle.cmark_grammar.specs.Items.{Item, Plain, Stands};
ghost use Rattle.cmark_grammar.specs.LeafReading.{Between, ReadsLeaf};
ghost use Rattle.cmark_grammar.specs.LeafText.{InTurn, Leaf, begin_of};
ghost use Rattle.cmark_grammar.specs.Questions.{Exchange, IsNext};
ghost use Rattle.cmark_grammar.specs.Readers.{Reader};
ghost use Rattle.cmark_inline_model.specs.GivenAnswers.{answers_of};
ghost use Rattle.cmark_inline_model.specs.LeafModel.{HaveLineEnds};
ghost use Rattle.cmark_inline_model.specs.LikeSlots.{IsLike};
ghost use Rattle.cmark_inline_model.specs.PlacedTokens.{AreLeafPlaces, HaveWholeEndings, StopsAt, may_open_markup, one_stretch, placed_item, text_reader};
ghost use Rattle.cmark_inline_model.specs.SlotRows.{ItemSlot};
ghost use Rattle.cmark_inline_model.specs.TextPlaces.{place_in, text_of as bytes_in};
ghost use Rattle.cmark_leaf_text.specs.Reads.{IsRead, is_cell_of, place_of, source_of, text_of};
ghost use Rattle.cmark_leaf_text.specs.declared.leaf_text.LeafText.{LeafText};
ghost use Rattle.cmark_values.specs.declared.text.CowStr.{CowStr};
ghost use Rattle.cmark_inline.specs.LeafViews.{shown_leaf};
ghost use Rattle.cmark_inline.specs.PlainStretches.{StandsForItself};
ghost use Rattle.cmark_inline.specs.Reached.{ReadsPlaces};
ghost use Rattle.cmark_slots.specs.SlotViews.{shown_slot};
ghost use Rattle.cmark_inline.specs.Tokens.{IsItem, begins_at};
ghost use Rattle.cmark_references.specs.declared.link.Link.{Link};
ghost use Rattle.cmark_slots.specs.declared.slot.Slot.{Slot};
ghost use Rattle.cmark_slots.specs.declared.slot.SlotKind.TheVariants as kind;

pub use cmark_inline_model::laws::{
    no_link_holds_a_link, questions_are_few, references_keep_the_limit,
    references_lead_to_their_definitions,
};

/// If its lines end with whole line endings, a leaf's text has the places of the grammar's leaf of the same stretches (`places`). Each byte
/// is at the place that the text says (`bytes`).
pub fn a_leaf_text_is_a_leaf_of_the_grammar()
    ensures places { (leaf : LeafText) (reader : Reader) → IsRead leaf
        → reader.source ≡ source_of leaf → HaveLineEnds reader.source (shown_leaf leaf).stretches
        → HaveWholeEndings (text_of leaf) (place_of leaf)
        → AreLeafPlaces reader (shown_leaf leaf) (text_of leaf)
        (place_in reader (shown_leaf leaf)) }
    ensures bytes { (leaf : LeafText) (reader : Reader) → IsRead leaf
        → reader.source ≡ source_of leaf → (k : ℕ) → k < length (text_of leaf)
        → place_of leaf k ≡ place_in reader (shown_leaf leaf) k }
{}

/// A leaf whose lines end with line endings begins at the place of its first byte (`first`). It ends directly after the place of its last
/// byte (`last`).
pub fn a_leaf_begins_and_ends_with_its_bytes()
    ensures first { (reader : Reader) (leaf : Leaf) → InTurn 0 leaf.stretches (length reader.source)
        → HaveLineEnds reader.source leaf.stretches
        → begin_of leaf.stretches ≡ place_in reader leaf 0 }
    ensures last { (reader : Reader) (leaf : Leaf) → HaveLineEnds reader.source leaf.stretches
        → 0 < length (bytes_in reader leaf)
        → place_in reader leaf (length (bytes_in reader leaf))
        ≡ suc (place_in reader leaf (length (bytes_in reader leaf) - 1)) }
{}

/// A slot that represents an item of a leaf's text is like this item in the places of the source. It gives the same event, from the same
/// bytes.
pub fn a_slot_is_like_its_item_in_the_source()
    ensures { (leaf : LeafText) (reader : Reader) (read : Leaf) (place : ℕ → ℕ)
        → ReadsPlaces leaf reader read place
        → (texts : List CowStr) (links : List Link) (slot : Slot) (item : Item) (at resume : ℕ)
        → begins_at reader.options reader.lookup (is_cell_of leaf) (text_of leaf) at
        ≡ Stands item resume
        → may_open_markup reader.options.email_autolinks (drop at (text_of leaf)) ≡ false
        → IsItem (is_cell_of leaf) (text_of leaf) texts item slot → item.start < item.end
        → item.end ≤ length (text_of leaf)
        → IsLike reader.source (shown_slot leaf texts links slot)
        (ItemSlot (placed_item place item)) }
{}

/// A pending text is one item of the grammar (`token`), and its slot is like this item (`slot`). It begins with literal bytes, perhaps after a
/// backslash, and ends where no literal byte follows.
pub fn a_pending_text_is_one_item_in_the_source()
    ensures token { (leaf : LeafText) (reader : Reader) (read : Leaf) (place : ℕ → ℕ)
        → ReadsPlaces leaf reader read place → (at start end to : ℕ)
        → begins_at reader.options reader.lookup (is_cell_of leaf) (text_of leaf) at
        ≡ item_at Plain start end
        → may_open_markup reader.options.email_autolinks (drop at (text_of leaf)) ≡ false
        → start < end → end ≤ to → to ≤ length (text_of leaf)
        →
        ((k : ℕ) → end ≤ k → k < to
        → StandsForItself reader.options reader.lookup (is_cell_of leaf) (text_of leaf) k to)
        → StopsAt (text_reader reader.options reader.lookup (text_of leaf))
        (one_stretch (is_cell_of leaf) (text_of leaf)) to → at ≤ length (text_of leaf)
        → token reader read (place at)
        ≡ Stands (placed_item place (record { kind = Plain; start = start; end = to })) (place to) }
    ensures slot { (leaf : LeafText) (reader : Reader) (read : Leaf) (place : ℕ → ℕ)
        → ReadsPlaces leaf reader read place → (at start end to : ℕ)
        → begins_at reader.options reader.lookup (is_cell_of leaf) (text_of leaf) at
        ≡ item_at Plain start end
        → may_open_markup reader.options.email_autolinks (drop at (text_of leaf)) ≡ false
        → start < end → end ≤ to → to ≤ length (text_of leaf)
        →
        ((k : ℕ) → end ≤ k → k < to
        → StandsForItself reader.options reader.lookup (is_cell_of leaf) (text_of leaf) k to)
        → StopsAt (text_reader reader.options reader.lookup (text_of leaf))
        (one_stretch (is_cell_of leaf) (text_of leaf)) to → at ≤ length (text_of leaf)
        → (texts : List CowStr) (links : List Link)
        → IsLike reader.source
        (shown_slot leaf texts links (record { kind = kind.Text; start = start; end = to }))
        (ItemSlot (placed_item place (record { kind = Plain; start = start; end = to }))) }
{}

/// A leaf has only one reading: its spans, its events with their ranges, and the state after it are determined. They depend on the reader,
/// the rest of the reference expansion limit before the leaf, and the answers in turn. The reader knows the text, the options, the
/// entities, the definitions and the footnotes.
pub fn one_spans()
    ensures { (reader : Reader) (leaf : Leaf) (before one other : Between)
        (asked others : List Exchange) (first second : List Ranged)
        → answers_of asked ≡ answers_of others
        → (h : ReadsLeaf reader (IsNext asked) leaf before first one)
        → (k : ReadsLeaf reader (IsNext others) leaf before second other)
        → (h.spans ≡ k.spans) × (first ≡ second) × (one ≡ other) }
{}
