//! Events as JSON.

ghost use Rattle.std.specs.Prelude.{◌≡◌, IfOk};
ghost use Rattle.cmark_text.specs.Shown.{shown};
ghost use Rattle.cmark_json.specs.EventData.{event_data};
ghost use Rattle.serde_json.specs.View.{view};

use crate::leaf;
use crate::tag::{end_value, tag_value};
use cmark_text::Event;
use serde_json::Value;
use std::alloc::{AllocError, Global};

/// An event.
pub fn event_value(alloc: Global, event: &Event<'_>) -> Result<Value, AllocError>
    ensures { IfOk result (λ v. view v ≡ event_data (shown event.now)) }
{
    match event {
        Event::Start(tag) => {
            let tag = tag_value(alloc, tag)?;
            leaf::with_one(alloc, "Start", tag)
        }
        Event::End(tag) => {
            let tag = end_value(alloc, *tag)?;
            leaf::with_one(alloc, "End", tag)
        }
        Event::Text(text) => leaf::with_text(alloc, "Text", text.as_str()),
        Event::Code(text) => leaf::with_text(alloc, "Code", text.as_str()),
        Event::InlineMath(text) => leaf::with_text(alloc, "InlineMath", text.as_str()),
        Event::DisplayMath(text) => leaf::with_text(alloc, "DisplayMath", text.as_str()),
        Event::Html(text) => leaf::with_text(alloc, "Html", text.as_str()),
        Event::InlineHtml(text) => leaf::with_text(alloc, "InlineHtml", text.as_str()),
        Event::FootnoteReference(label) => {
            leaf::with_text(alloc, "FootnoteReference", label.as_str())
        }
        Event::SoftBreak => leaf::alone(alloc, "SoftBreak"),
        Event::HardBreak => leaf::alone(alloc, "HardBreak"),
        Event::Rule => leaf::alone(alloc, "Rule"),
        Event::TaskListMarker(is_checked) => {
            leaf::with_one(alloc, "TaskListMarker", Value::Bool(*is_checked))
        }
    }
}
