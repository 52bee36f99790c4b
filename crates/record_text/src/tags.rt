// The tags: `<name>`, `</name>` and `<name/>`.
ghost use Rattle.std.specs.Prelude.{◌≡◌};
ghost use Rattle.record_text.specs.Tags.{Slashed, name_in, told};
ghost use Rattle.record_text.specs.Machine.{tag_of};

use lexical::{is_slash, is_word};

// A tag, with its name.
#[derive(Clone, Copy)]
pub enum Tag<'t> {
    Opening(&'t [u8]),
    Closing(&'t [u8]),
    Alone(&'t [u8]),
}

impl<'t> Tag<'t> {
    fn name(self) -> &'t [u8]
        ensures { result.now ≡ name_in self.entry }
    {
        match self {
            Tag::Opening(name) | Tag::Closing(name) | Tag::Alone(name) => name,
        }
    }
}

// Which tag it is by its slashes, whatever its name.
fn by_slashes(body: &[u8]) -> Tag<'_>
    ensures { Slashed body.now result }
{
    match body {
        [first, name @ ..] if is_slash(*first) => Tag::Closing(name),
        [name @ .., last] if is_slash(*last) => Tag::Alone(name),
        name => Tag::Opening(name),
    }
}

// The tag of this body, which is what stands between its `<` and its `>`.
pub(crate) fn tag_of(body: &[u8]) -> Option<Tag<'_>>
    ensures { told result ≡ tag_of body.now }
{
    let tag = by_slashes(body);
    is_word(tag.name()).then_some(tag)
}
