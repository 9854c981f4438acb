//! Records of words, the replies to them, and what is due.
ghost use Rattle.std.specs.Prelude.{◌≡◌, ◌*◌, ◌≤◌, ◌↔◌, IsTrue, pos};
ghost use Rattle.std.specs.List.{list_all};
ghost use Rattle.std.specs.Ordering.{int_eq};
ghost use Rattle.vp_words.specs.Number.{is_finite};
ghost use Rattle.vp_words.specs.Record.{IsRecord, IsValid, due_for, field_count, is_valid, kind_due, pair_count, pairs_then_finite, place_count};

use crate::{Word, encloses};

/// The kinds of record.
#[derive(Clone, Copy, PartialEq, Eq, Debug)]
pub enum Kind {
    /// The first record: two ends of each parameter and of each state, and a word for each control.
    Init,
    /// A choice: a word for each control.
    Choice,
    /// What was sensed: two ends of the time that passed and of each new state.
    Sense,
}

/// The kind of record that is due next.
#[derive(Clone, Copy, PartialEq, Eq, Debug)]
pub enum Due {
    /// The first record.
    Init,
    /// A choice.
    Choice,
    /// What was sensed.
    Sense,
    /// Nothing is due: a violation was reported.
    Ended,
}

/// Whether a record was answered.
#[derive(Clone, Copy, PartialEq, Eq, Debug)]
pub enum Turn {
    /// The record was due, and has its reply.
    Answered,
    /// Nothing was due, and nothing changed.
    Ended,
}

/// How many parameters, states and controls a model has.
#[derive(Clone, Copy, PartialEq, Eq, Debug)]
pub struct Counts {
    /// How many parameters.
    pub params: u8,
    /// How many states.
    pub states: u8,
    /// How many controls.
    pub controls: u8,
}

/// The words of one input line. Those from place `len` on are 0.
#[derive(Clone, Copy, PartialEq, Eq, Debug)]
pub struct Record {
    /// What kind of line it is.
    pub kind: Kind,
    /// The words, in the order of the line.
    pub words: [Word; 64],
    /// How many words the line has.
    pub len: u8,
}

/// What a violation reports. `k` is the number of a conjunct, from 1, and `unknown` says that its
/// truth is not known, where it is false otherwise.
#[derive(Clone, Copy, PartialEq, Eq, Debug)]
pub enum Why {
    /// A conjunct of the initial condition.
    Init { k: u32, unknown: bool },
    /// A conjunct of the plant's monitor.
    Plant { k: u32, unknown: bool },
    /// The choice was not allowed, and the fallback's value for some control is not known to be one
    /// word.
    Fallback,
}

/// The answer to a record.
#[derive(Clone, Copy, PartialEq, Eq, Debug)]
pub enum Reply {
    /// Each conjunct that the record is tested by holds.
    Ok,
    /// The controls to apply, `len` of them; the words from there on are 0. `fallback` says that they
    /// are the fallback's, and not those chosen.
    Act {
        words: [Word; 16],
        len: u8,
        fallback: bool,
    },
    /// A monitor isn't shown to hold, and nothing is due from here on.
    Violation(Why),
}

impl Kind {
    /// What is due where a record of this kind is.
    pub fn due(self) -> Due
        ensures { result ≡ due_for self }
    {
        match self {
            Kind::Init => Due::Init,
            Kind::Choice => Due::Choice,
            Kind::Sense => Due::Sense,
        }
    }
}

impl Due {
    /// The kind of the record that is due, unless nothing is.
    pub fn kind(self) -> Option<Kind>
        ensures { result ≡ kind_due self }
    {
        match self {
            Due::Init => Some(Kind::Init),
            Due::Choice => Some(Kind::Choice),
            Due::Sense => Some(Kind::Sense),
            Due::Ended => None,
        }
    }
}

impl Counts {
    /// How many places the variables of such a model have: one for each parameter, two for each state
    /// and control, and one for the time that passed.
    pub fn place_count(self) -> u32
        ensures { result ≡ place_count self }
    {
        u32::from(self.params) + 2 * u32::from(self.states) + 2 * u32::from(self.controls) + 1
    }

    /// Whether a model may have so many: a state and a control at least, and at most 32 places.
    pub fn is_valid(self) -> bool
        ensures test { result ≡ is_valid self }
        ensures valid { IsTrue result ↔ IsValid self }
    {
        self.states >= 1 && self.controls >= 1 && self.place_count() <= 32
    }
}

/// How many words a record of the kind has.
pub fn fields(kind: Kind, counts: Counts) -> u8
    requires { IsValid counts }
    ensures count { result ≡ field_count kind counts }
    ensures room { result ≤ 64 }
{
    match kind {
        Kind::Init => 2 * counts.params + 2 * counts.states + counts.controls,
        Kind::Choice => counts.controls,
        Kind::Sense => 2 + 2 * counts.states,
    }
}

/// With how many pairs of ends a record of the kind begins.
pub fn pair_count(kind: Kind, counts: Counts) -> u8
    requires { IsValid counts }
    ensures count { result ≡ pair_count kind counts }
    ensures room { 2 * result ≤ field_count kind counts }
{
    match kind {
        Kind::Init => counts.params + counts.states,
        Kind::Choice => 0,
        Kind::Sense => 1 + counts.states,
    }
}

impl Record {
    /// Whether the record has the words of its kind: their number, each pair of ends valid, each
    /// control finite, and zeros behind.
    pub fn is_valid(&self, counts: Counts) -> bool
        requires { IsValid counts }
        ensures { IsTrue result ↔ IsRecord counts self.now }
    {
        let len = fields(self.kind, counts);
        if self.len != len {
            return false;
        }
        let (words, padding) = self.words.split_at(len as usize);
        are_zero(padding) && are_valid(pair_count(self.kind, counts), words)
    }
}

// Whether so many valid pairs of ends stand first, and then finite words alone.
fn are_valid(pairs: u8, words: &[Word]) -> bool
    ensures { result ≡ pairs_then_finite pairs words.now }
{
    if pairs == 0 {
        return are_finite(words);
    }
    match words {
        [low, high, rest @ ..] => encloses(*low, *high) && are_valid(pairs - 1, rest),
        _ => false,
    }
}

fn are_finite(words: &[Word]) -> bool
    ensures { result ≡ list_all is_finite words.now }
{
    for word in words {
        if !word.is_finite() {
            return false;
        }
    }
    true
}

fn are_zero(words: &[Word]) -> bool
    ensures { result ≡ list_all (λ z. int_eq z (pos 0)) words.now }
{
    for word in words {
        if *word != Word::ZERO {
            return false;
        }
    }
    true
}
