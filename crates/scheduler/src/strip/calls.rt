// Writing to the front of a caller's buffer.
ghost use Rattle.std.specs.Prelude.{◌≡◌, ◌+◌, ◌^◌, ◌<◌, ◌≤◌, ◌++◌, length, take, nat_le, slice_set};
ghost use Rattle.model.specs.Tape.{grown};
ghost use Rattle.scheduler.specs.Stretches.{list_of};
ghost use Rattle.scheduler.specs.Strips.{Fronted, lengthens_last, ticks_of, PutThere};

use super::Strip;
use model::{Finished, Span};

impl<'a, T: Copy> Strip<'a, T> {
    // Nothing is written.
    pub fn new(places: &'a mut [T]) -> Strip<'a, T>
        ensures same_reference { result.places.ghost_name ≡ places.entry.ghost_name }
        ensures places { result.places.now ≡ places.old }
        ensures none { result.written ≡ 0 }
    {
        Strip { places, written: 0 }
    }

    pub fn len(&self) -> usize
        ensures { result ≡ self.now.written }
    {
        self.written
    }

    pub fn is_full(&self) -> bool
        ensures { result ≡ nat_le (length self.now.places.now) self.now.written }
    {
        self.written >= self.places.len()
    }

    // One item more, in the next place.
    fn push(&mut self, item: T)
        requires { self.old.written < length self.old.places.now }
        ensures same_reference { self.new.places.ghost_name ≡ self.old.places.ghost_name }
        ensures written { self.new.written ≡ self.old.written + 1 }
        ensures places { self.new.places.now ≡ slice_set self.old.places.now self.old.written item }
    {
        self.places[self.written] = item;
        self.written += 1;
    }
}

impl<'a> Strip<'a, Finished> {
    // The finished event behind the others, if there is one.
    pub(crate) fn note(&mut self, ended: Option<Finished>)
        requires { self.old.written + length (list_of ended) ≤ length self.old.places.now }
        ensures same_reference { self.new.places.ghost_name ≡ self.old.places.ghost_name }
        ensures written { self.new.written ≡ self.old.written + length (list_of ended) }
        ensures places { Fronted (take self.old.written self.old.places.now ++ list_of ended) self.old.places.now self.new.places.now }
    {
        if let Some(event) = ended {
            self.push(event);
        }
    }
}

impl<'a> Strip<'a, Span> {
    // Whether a span is alike to the last in kind, who and slot owner. A test and an index: a part of a buffer that is lent through a
    // `&` to the strip gets no proof.
    fn lengthens_last(&self, next: Span) -> bool
        ensures { result ≡ lengthens_last (take self.now.written self.now.places.now) next }
    {
        if self.written == 0 {
            return false;
        }
        let last = self.places[self.written - 1];
        last.row() == next.row()
    }

    // Whether one span more has a place: it lengthens the last, or takes the next place.
    pub fn has_place(&self, next: Span) -> bool
        ensures { result ≡ nat_le (length (grown (take self.now.written self.now.places.now) next)) (length self.now.places.now) }
    {
        self.written < self.places.len() || self.lengthens_last(next)
    }

    // One span more, which has a place.
    pub(crate) fn put(&mut self, next: Span)
        requires has_place { length (grown (take self.old.written self.old.places.now) next) ≤ length self.old.places.now }
        requires few_ticks { ticks_of (take self.old.written self.old.places.now) + next.ticks < 2 ^ 32 }
        ensures same_reference { self.new.places.ghost_name ≡ self.old.places.ghost_name }
        ensures put { PutThere self.old.places.now self.old.written next self.new.written self.new.places.now }
    {
        if self.lengthens_last(next) {
            self.places[self.written - 1].ticks += next.ticks;
        } else {
            self.push(next);
        }
    }
}
