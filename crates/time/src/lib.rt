// Two kinds of time. An instant is a tick on the clock, a span is a number of ticks.
//
// What is here: the two structs, and every sum and difference of them that the product needs. Adding a span to an instant is the
// only operation on both kinds, and no other crate computes with the number inside.
// What is proved: each operation is total. A sum that does not fit a word is the largest word, so a comparison with any number
// below that is exact; a difference below nought is nought.
// What a caller should know: an instant or a span may be any number; bounds on them are the table's business.

#![tactic(auto)]

ghost use Rattle.time.specs.Kinds.{Later, Between, Longer, Less, Widened};

#[repr(C)]
#[derive(Clone, Copy, Debug, Default, PartialEq, Eq, PartialOrd, Ord)]
pub struct Instant(pub u64);

#[repr(C)]
#[derive(Clone, Copy, Debug, Default, PartialEq, Eq, PartialOrd, Ord)]
pub struct Span(pub u64);

impl Instant {
    // The instant that lies the span after this one.
    pub fn plus(self, span: Span) -> Instant
        ensures { Later self span result }
    {
        Instant(self.0.saturating_add(span.0))
    }

    // The span from the earlier instant to this one.
    pub fn since(self, earlier: Instant) -> Span
        ensures { Between earlier self result }
    {
        Span(self.0.saturating_sub(earlier.0))
    }
}

// `plus` and `less` are `plus` and `since` of the other kind, and stay: each is a line, and the two kinds are two tuple structs by rule.
impl Span {
    // The two spans one after the other.
    pub fn plus(self, span: Span) -> Span
        ensures { Longer self span result }
    {
        Span(self.0.saturating_add(span.0))
    }

    // What is left of this span after the other is taken from it.
    pub fn less(self, span: Span) -> Span
        ensures { Less self span result }
    {
        Span(self.0.saturating_sub(span.0))
    }
}

// A span as a number of 128 bits, which holds the sum of any spans of a table.
impl From<Span> for u128 {
    ghost from_gives = { Widened };

    fn from(span: Span) -> u128 {
        u128::from(span.0)
    }
}
