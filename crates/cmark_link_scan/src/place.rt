//! Places in a text.

ghost use Rattle.std.specs.Prelude.{◌≡◌, ◌+◌, length, drop};
ghost use Rattle.std.specs.Str.{IsCharBoundary};
ghost use Rattle.cmark_link_scan.specs.Rests.{IsRest};

/// The byte offset at which a rest of a text begins in it.
pub fn place_of(text: &str, rest: &str) -> usize
    requires { IsRest text.now rest.now }
    ensures rest { drop result text.now ≡ rest.now }
    ensures size { result + length rest.now ≡ length text.now }
    ensures boundary { IsCharBoundary text.now result }
{
    text.len() - rest.len()
}
