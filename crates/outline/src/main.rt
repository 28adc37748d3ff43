//! Prints the headings of a Markdown text, each with its level and the byte where it begins.
#![tactic(auto)]

use pulldown_cmark::{BasicEntities, Event, Parser, Tag, TagEnd};
use std::alloc::{AllocError, Global};
use std::io::{self, Read, Write};

fn outline(alloc: Global, text: &str) -> Result<String, AllocError> {
    let mut out = String::new(alloc);
    let mut is_heading = false;
    for item in Parser::new(alloc, text, &BasicEntities)?.into_offset_iter() {
        let (event, range) = item?;
        match &event {
            Event::Start(Tag::Heading { level, .. }) => {
                is_heading = true;
                write!(&mut out, "{}: {} ", range.start, level)?;
            }
            Event::End(TagEnd::Heading(_)) => {
                is_heading = false;
                out.push_str("\n")?;
            }
            Event::Text(text) | Event::Code(text) => {
                if is_heading {
                    out.push_str(text.as_str())?;
                }
            }
            _ => {}
        }
    }
    Ok(out)
}

fn main(rt: HostRuntime) -> io::Result<()> {
    let mut input = Vec::new(rt.alloc());
    rt.reader().read_to_end(&mut input)?;
    let text = String::from_utf8_lossy(rt.alloc(), input.as_slice())?;
    let lines = outline(rt.alloc(), text.as_str())?;
    let mut out = io::writer(&rt);
    out.write_all(lines.as_str().as_bytes())?;
    out.flush()
}
