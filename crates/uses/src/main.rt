//! Uses a parser between its events, and prints what it finds in a text.
#![tactic(auto)]

mod asking;
mod reading;

use crate::asking::asked_and_links;
use crate::reading::{write_definitions, write_ranges};
use pulldown_cmark::{BasicEntities, Parser};
use std::alloc::{AllocError, Global};
use std::io::{self, Read, Write};

// The number of questions and of links, the definition of `foo` at two points, and the ranges after four events.
fn report(alloc: Global, text: &str) -> Result<String, AllocError> {
    let mut out = String::new(alloc);
    let (asked, links) = asked_and_links(alloc, text, "/page")?;
    write!(&mut out, "{asked} questions, {links} links to /page\n")?;
    let mut parser = Parser::new(alloc, text, &BasicEntities)?;
    let written = write_definitions(&mut out, &mut parser, "FOO");
    let mut iter = parser.into_offset_iter();
    let ranges = write_ranges(&mut out, &mut iter);
    drop(iter);
    written?;
    ranges?;
    Ok(out)
}

fn main(rt: HostRuntime) -> io::Result<()> {
    let mut input = Vec::new(rt.alloc());
    rt.reader().read_to_end(&mut input)?;
    let text = String::from_utf8_lossy(rt.alloc(), input.as_slice())?;
    let lines = report(rt.alloc(), text.as_str())?;
    let mut out = io::writer(&rt);
    out.write_all(lines.as_str().as_bytes())?;
    out.flush()
}
