//! Theorems about safe events. Each is the contract of a function that does nothing.

ghost use Rattle.cmark_safe.specs.SafeEvents.{RefusedSchemesStay, SafeEventsAreSafe};

/// The HTML of safe events is text with tags of a fixed list only, whose addresses are relative or have an allowed scheme.
pub fn safe_events_have_safe_html()
    ensures { SafeEventsAreSafe }
{}

/// No address is allowed if its scheme is `javascript`, `vbscript`, `data` or `file`, whichever further schemes a caller names.
pub fn refused_schemes_stay_refused()
    ensures { RefusedSchemesStay }
{}
