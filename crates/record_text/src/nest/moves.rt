ghost use Rattle.std.specs.Prelude.{◌≡◌, ℕ, ◌+◌, List, length};
ghost use Rattle.lent.specs.Stacks.{held};
ghost use Rattle.record_text.specs.Cutting.{TagSpans, item_of};
ghost use Rattle.record_text.specs.Grammar.{bytes, num, tag};
ghost use Rattle.record_text.specs.Machine.{closes, opens, whole};
ghost use Rattle.record_text.specs.Nest.{held_of, shape_of};
ghost use Rattle.record_text.specs.Pass.{full, start as first, value_in};
ghost use Rattle.record_text.specs.Turns.{Admitted, Ended, Went, WentTag, no_node, one_node};

use super::{Done, Held, Nest, OpenTag};
use crate::entry::Entry;
use crate::items::{Item, Placed};
use crate::tags::{Tag, tag_of};
use lent::Stack;
use lexical::number;
use records::{MOST_LEVELS, MOST_NODES};
use refusals::Refusal;

impl Held {
    // The value of an element that holds this.
    fn value(self) -> Option<i32>
        ensures { result ≡ value_in (held_of self) }
    {
        match self {
            Held::Value(value) => Some(value),
            Held::Blanks | Held::Elements => None,
        }
    }
}

impl<'t, 's> Nest<'t, 's> {
    // No element yet, over slots for the open tags.
    pub(crate) fn over(slots: &'s mut [OpenTag<'t>; MOST_LEVELS]) -> Nest<'t, 's>
        ensures { shape_of result ≡ first }
    {
        Nest {
            nodes: 0,
            held: Held::Elements,
            tags: Stack::over(slots),
        }
    }

    // Whether one element more would be a node too many or lie too deep.
    fn is_full(&self) -> bool
        ensures { result ≡ full self.now.nodes (length (held self.now.tags)) }
    {
        self.nodes >= MOST_NODES || self.tags.is_full()
    }

    // Refuses an element that begins at `place`, where it may not: after a number, or beyond a limit.
    fn admit(&self, place: usize) -> Result<(), Refusal>
        ensures { Admitted place (shape_of self.now) result }
    {
        if let Held::Value(_) = self.held {
            return Err(Refusal::Misfit(place));
        }
        if self.is_full() {
            return Err(Refusal::Limit(place));
        }
        Ok(())
    }

    // A number item, which began at `place`.
    fn number(&mut self, digits: &[u8], place: usize) -> Result<(), Refusal>
        ensures { Went place (shape_of self.old) (num digits.now) (shape_of self.new) (no_node result) }
    {
        match (self.held, number(digits)) {
            (Held::Blanks, Some(value)) => {
                self.held = Held::Value(value);
                Ok(())
            }
            _ => Err(Refusal::Misfit(place)),
        }
    }

    // An opening tag.
    fn begin(&mut self, name: &'t [u8], place: usize) -> Result<(), Refusal>
        ensures { (q : ℕ) → WentTag place q (shape_of self.old) (opens name.now) (shape_of self.new) (no_node result) }
    {
        self.admit(place)?;
        let node = self.nodes;
        let _ = self.tags.push(OpenTag { name, place, node });
        self.nodes = node + 1;
        self.held = Held::Blanks;
        Ok(())
    }

    // An empty tag.
    fn hollow(&mut self, name: &[u8], at: Placed<'t>) -> Result<Done, Refusal>
        ensures { WentTag at.entry.start at.entry.end (shape_of self.old) (whole name.now) (shape_of self.new) (one_node result) }
    {
        self.admit(at.start)?;
        let node = self.nodes;
        self.nodes = node + 1;
        self.held = Held::Elements;
        let depth = self.tags.len();
        let entry = Entry::new(at.start, at.end, name.len(), depth, None);
        Ok((node, entry))
    }

    // A closing tag.
    fn close(&mut self, name: &[u8], at: Placed<'t>) -> Result<Done, Refusal>
        ensures { WentTag at.entry.start at.entry.end (shape_of self.old) (closes name.now) (shape_of self.new) (one_node result) }
    {
        let tag = self.tags.pop().ok_or(Refusal::Misfit(at.start))?;
        if name != tag.name {
            return Err(Refusal::Misfit(at.start));
        }
        let value = self.held.value();
        self.held = Held::Elements;
        let depth = self.tags.len();
        let entry = Entry::new(tag.place, at.end, name.len(), depth, value);
        Ok((tag.node, entry))
    }

    // A tag by its body.
    fn tag(&mut self, body: &'t [u8], at: Placed<'t>) -> Result<Option<Done>, Refusal>
        requires { at.start + length (bytes (tag body.now)) ≡ at.end }
        ensures { Went at.entry.start (shape_of self.old) (tag body.now) (shape_of self.new) result }
    {
        match tag_of(body) {
            Some(Tag::Opening(name)) => self.begin(name, at.start).map(|()| None),
            Some(Tag::Closing(name)) => self.close(name, at).map(Some),
            Some(Tag::Alone(name)) => self.hollow(name, at).map(Some),
            None => Err(Refusal::Misfit(at.start)),
        }
    }

    // The next item of the text.
    pub(crate) fn take(&mut self, piece: Placed<'t>) -> Result<Option<Done>, Refusal>
        requires { TagSpans piece.start piece.item piece.end }
        ensures { (t : List ℕ) → Went piece.entry.start (shape_of self.old) (item_of t piece.entry.item) (shape_of self.new) result }
    {
        let start = piece.start;
        match piece.item {
            Item::Gap => Ok(None),
            Item::Tag(body) => self.tag(body, piece),
            Item::Number(digits) => self.number(digits, start).map(|()| None),
            Item::Stray | Item::Lone => Err(Refusal::Misfit(start)),
        }
    }

    // The end of the text, at `place`.
    pub(crate) fn end(&self, place: usize) -> Result<(), Refusal>
        ensures { Ended place (shape_of self.now) result }
    {
        if self.tags.top().is_some() {
            return Err(Refusal::Misfit(place));
        }
        Ok(())
    }
}
