//! A closure that is asked about references without a definition.

ghost use Rattle.std.specs.Prelude.{◌≡◌, ◌≤◌, IfSome};
ghost use Rattle.cmark_grammar.specs.Entities.{basic_entity};
ghost use Rattle.cmark_parser.specs.Parsing.{CanGo, IsReady};
ghost use Rattle.cmark_values.specs.Shown.{text_bytes};

use bitflags::Flags;
use pulldown_cmark::{
    BasicEntities, BrokenLinkCallback, CowStr, Event, FnCallback, Options, Parser, Tag,
};
use std::alloc::{AllocError, Global};

// Whether an event is the start of a link to this page.
fn leads_to(event: &Event<'_>, page: &str) -> bool {
    match event {
        Event::Start(Tag::Link { dest_url, .. }) => dest_url.as_str() == page,
        _ => false,
    }
}

// The number of links to `page` that the rest of a parser's events begin.
fn links_to<'a, F: BrokenLinkCallback<'a> + Drop>(
    parser: &mut Parser<'a, BasicEntities, F>,
    page: &str,
) -> Result<usize, AllocError>
    requires goes { CanGo (λ _. basic_entity) parser.old }
    requires ready { IsReady F.ready parser.old }
{
    let mut links = 0usize;
    for event in parser {
        if leads_to(&event?, page) {
            links = links.saturating_add(1);
        }
    }
    Ok(links)
}

/// Returns how many references without a definition a text has, and how many links to `page`, if each of these references leads there.
pub fn asked_and_links<'x>(
    alloc: Global,
    text: &'x str,
    page: &'x str,
) -> Result<(usize, usize), AllocError> {
    let mut asked = 0usize;
    let callback = FnCallback::new(
        |link|
            ensures counts { asked.entry ≤ asked.exit }
            ensures page { IfSome result (λ answer. text_bytes answer.0 ≡ page.entry.now) }
        {
            asked = asked.saturating_add(1);
            Some((CowStr::Borrowed(page), link.reference))
        },
    );
    let mut parser = Parser::new_with_broken_link_callback(
        alloc,
        text,
        Options::empty(),
        &BasicEntities,
        Some(callback),
    )?;
    let links = links_to(&mut parser, page);
    drop(parser);
    Ok((asked, links?))
}
