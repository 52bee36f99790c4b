ghost use Rattle.std.specs.Prelude.{◌≡◌, ◌+◌, ◌-◌, ◌≤◌, [], ◌∷◌, ◌++◌, length, take, is_some, if◌then◌else◌, MatchOption, nat_le, nat_lt, slice_set};
ghost use Rattle.lent.specs.Stacks.{held, lent, older, room};
ghost use Rattle.std.specs.Option.{option_to_list};

use super::Stack;

impl<'a, T: Copy> Stack<'a, T> {
    // An empty stack over the slots. (`same`, here and below: it is the same loan, so the caller finds in its slice what the stack
    // leaves there.)
    pub fn over(slots: &'a mut [T]) -> Stack<'a, T>
        ensures held { held result ≡ [] }
        ensures lent { lent result ≡ slots.old }
        ensures same { result.slots.ghost_name ≡ slots.entry.ghost_name }
    {
        Stack { slots, count: 0 }
    }

    // The entries that it holds, the oldest first.
    fn held(&self) -> &[T]
        ensures { result.now ≡ held self.now }
    {
        &self.slots[..self.count]
    }

    // How many entries it holds.
    pub fn len(&self) -> usize
        ensures { result ≡ length (held self.now) }
    {
        self.held().len()
    }

    // Whether there is room for no further entry.
    pub fn is_full(&self) -> bool
        ensures { result ≡ nat_le (room self.now) (length (held self.now)) }
    {
        self.slots.len() <= self.len()
    }

    // One entry more, or false where there is no room. (A `bool`, as a set's `insert` has: an error would say no more.)
    pub fn push(&mut self, x: T) -> bool
        ensures test { result ≡ nat_lt (length (held self.old)) (room self.old) }
        ensures held { held self.new ≡ (if result then held self.old ++ x ∷ [] else held self.old) }
        ensures lent { lent self.new ≡ (if result then slice_set (lent self.old) (length (held self.old)) x else lent self.old) }
        ensures room { room self.new ≡ room self.old }
        ensures same { self.new.slots.ghost_name ≡ self.old.slots.ghost_name }
    {
        if self.is_full() {
            return false;
        }
        self.slots[self.count] = x;
        self.count += 1;
        true
    }

    // The newest entry, which stays.
    pub fn top(&self) -> Option<T>
        ensures test { is_some result ≡ nat_lt 0 (length (held self.now)) }
        ensures held { held self.now ≡ older self.now ++ option_to_list result }
    {
        self.held().last().copied()
    }

    // Takes the newest entry off.
    pub fn pop(&mut self) -> Option<T>
        ensures test { is_some result ≡ nat_lt 0 (length (held self.old)) }
        ensures held { held self.old ≡ held self.new ++ option_to_list result }
        ensures lent { lent self.new ≡ lent self.old }
        ensures same { self.new.slots.ghost_name ≡ self.old.slots.ghost_name }
    {
        let newest = self.top()?;
        self.count -= 1;
        Some(newest)
    }
}
