//! The numbers in flat records, as the crate's README lists them.

// The kinds of records.
pub const FURTHER_KIND: u8 = 0;

pub const START_KIND: u8 = 1;

pub const END_KIND: u8 = 2;

pub const TEXT_KIND: u8 = 3;

pub const CODE_KIND: u8 = 4;

pub const INLINE_MATH_KIND: u8 = 5;

pub const DISPLAY_MATH_KIND: u8 = 6;

pub const HTML_KIND: u8 = 7;

pub const INLINE_HTML_KIND: u8 = 8;

pub const FOOTNOTE_REFERENCE_KIND: u8 = 9;

pub const SOFT_BREAK_KIND: u8 = 10;

pub const HARD_BREAK_KIND: u8 = 11;

pub const RULE_KIND: u8 = 12;

pub const TASK_LIST_MARKER_KIND: u8 = 13;

pub const DEFINITION_KIND: u8 = 14;

pub const QUESTION_KIND: u8 = 15;

pub const ANSWER_KIND: u8 = 16;

// The tags of elements; a record of another kind than a start, an end or a further record has none.
pub const PARAGRAPH_TAG: u8 = 1;

pub const HEADING_TAG: u8 = 2;

pub const BLOCK_QUOTE_TAG: u8 = 3;

pub const CODE_BLOCK_TAG: u8 = 4;

pub const HTML_BLOCK_TAG: u8 = 5;

pub const LIST_TAG: u8 = 6;

pub const ITEM_TAG: u8 = 7;

pub const FOOTNOTE_DEFINITION_TAG: u8 = 8;

pub const DEFINITION_LIST_TAG: u8 = 9;

pub const DEFINITION_LIST_TITLE_TAG: u8 = 10;

pub const DEFINITION_LIST_DEFINITION_TAG: u8 = 11;

pub const TABLE_TAG: u8 = 12;

pub const TABLE_HEAD_TAG: u8 = 13;

pub const TABLE_ROW_TAG: u8 = 14;

pub const TABLE_CELL_TAG: u8 = 15;

pub const EMPHASIS_TAG: u8 = 16;

pub const STRONG_TAG: u8 = 17;

pub const STRIKETHROUGH_TAG: u8 = 18;

pub const SUPERSCRIPT_TAG: u8 = 19;

pub const SUBSCRIPT_TAG: u8 = 20;

pub const HIGHLIGHT_TAG: u8 = 21;

pub const LINK_TAG: u8 = 22;

pub const IMAGE_TAG: u8 = 23;

pub const METADATA_BLOCK_TAG: u8 = 24;

pub const NO_TAG: u8 = 0;

// The contents of further records.
pub const TITLE_PART: u8 = 1;

pub const LABEL_PART: u8 = 2;

pub const HEADING_ID_PART: u8 = 3;

pub const CLASS_PART: u8 = 4;

pub const ATTRIBUTE_PART: u8 = 5;

pub const VALUE_PART: u8 = 6;

pub const NO_VALUE_PART: u8 = 7;

pub const FIRST_NUMBER_PART: u8 = 8;

// The link types.
pub const INLINE_LINK: u8 = 0;

pub const REFERENCE_LINK: u8 = 1;

pub const REFERENCE_UNKNOWN_LINK: u8 = 2;

pub const COLLAPSED_LINK: u8 = 3;

pub const COLLAPSED_UNKNOWN_LINK: u8 = 4;

pub const SHORTCUT_LINK: u8 = 5;

pub const SHORTCUT_UNKNOWN_LINK: u8 = 6;

pub const AUTOLINK_LINK: u8 = 7;

pub const EMAIL_LINK: u8 = 8;

pub const WIKILINK_LINK: u8 = 9;

pub const WIKILINK_WITH_POTHOLE_LINK: u8 = 10;

// The alignments of a table's columns.
pub const UNALIGNED_COLUMN: u8 = 0;

pub const LEFT_COLUMN: u8 = 1;

pub const CENTER_COLUMN: u8 = 2;

pub const RIGHT_COLUMN: u8 = 3;

// The kinds of block quotes.
pub const NO_ALERT_QUOTE: u8 = 0;

pub const NOTE_QUOTE: u8 = 1;

pub const TIP_QUOTE: u8 = 2;

pub const IMPORTANT_QUOTE: u8 = 3;

pub const WARNING_QUOTE: u8 = 4;

pub const CAUTION_QUOTE: u8 = 5;

// The kinds of code blocks.
pub const INDENTED_BLOCK: u8 = 0;

pub const FENCED_BLOCK: u8 = 1;

// The kinds of metadata blocks.
pub const YAML_METADATA: u8 = 0;

pub const PLUSES_METADATA: u8 = 1;

// The data of a list that is bulleted or ordered, and of a checkbox.
pub const NO: u8 = 0;

pub const YES: u8 = 1;

// The data of whatever needs none.
pub const NO_DATA: u8 = 0;
