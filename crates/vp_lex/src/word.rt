//! The reserved words.
ghost use Rattle.std.specs.Prelude.{◌≡◌, MatchOption, IsTrue, ◌↔◌};
ghost use Rattle.vp_lex.specs.Reserved.{IsReserved, word_text};

/// A reserved word.
#[derive(Clone, Copy, Debug, PartialEq, Eq)]
pub enum ReservedWord {
    /// `package`
    Package,
    /// `params`
    Params,
    /// `states`
    States,
    /// `controls`
    Controls,
    /// `init`
    Init,
    /// `inv`
    Inv,
    /// `safe`
    Safe,
    /// `ctrl`
    Ctrl,
    /// `time`
    Time,
    /// `to`
    To,
    /// `flow`
    Flow,
    /// `slack`
    Slack,
    /// `from`
    From,
    /// `domain`
    Domain,
    /// `fallback`
    Fallback,
    /// `cert`
    Cert,
    /// `step`
    Step,
    /// `pos`
    Pos,
    /// `sum`
    Sum,
    /// `eq`
    Eq,
    /// `of`
    Of,
    /// `times`
    Times,
    /// `sq`
    Sq,
    /// `if`
    If,
    /// `else`
    Else,
    /// `true`
    True,
    /// `false`
    False,
    /// `tau`
    Tau,
}

const WORDS: [ReservedWord; 28] = [
    ReservedWord::Package,
    ReservedWord::Params,
    ReservedWord::States,
    ReservedWord::Controls,
    ReservedWord::Init,
    ReservedWord::Inv,
    ReservedWord::Safe,
    ReservedWord::Ctrl,
    ReservedWord::Time,
    ReservedWord::To,
    ReservedWord::Flow,
    ReservedWord::Slack,
    ReservedWord::From,
    ReservedWord::Domain,
    ReservedWord::Fallback,
    ReservedWord::Cert,
    ReservedWord::Step,
    ReservedWord::Pos,
    ReservedWord::Sum,
    ReservedWord::Eq,
    ReservedWord::Of,
    ReservedWord::Times,
    ReservedWord::Sq,
    ReservedWord::If,
    ReservedWord::Else,
    ReservedWord::True,
    ReservedWord::False,
    ReservedWord::Tau,
];

impl ReservedWord {
    /// How the word is spelled.
    pub fn text(self) -> &'static str
        ensures { result.now ≡ word_text self }
    {
        match self {
            ReservedWord::Package => "package",
            ReservedWord::Params => "params",
            ReservedWord::States => "states",
            ReservedWord::Controls => "controls",
            ReservedWord::Init => "init",
            ReservedWord::Inv => "inv",
            ReservedWord::Safe => "safe",
            ReservedWord::Ctrl => "ctrl",
            ReservedWord::Time => "time",
            ReservedWord::To => "to",
            ReservedWord::Flow => "flow",
            ReservedWord::Slack => "slack",
            ReservedWord::From => "from",
            ReservedWord::Domain => "domain",
            ReservedWord::Fallback => "fallback",
            ReservedWord::Cert => "cert",
            ReservedWord::Step => "step",
            ReservedWord::Pos => "pos",
            ReservedWord::Sum => "sum",
            ReservedWord::Eq => "eq",
            ReservedWord::Of => "of",
            ReservedWord::Times => "times",
            ReservedWord::Sq => "sq",
            ReservedWord::If => "if",
            ReservedWord::Else => "else",
            ReservedWord::True => "true",
            ReservedWord::False => "false",
            ReservedWord::Tau => "tau",
        }
    }

    fn is_spelled(self, bytes: &[u8]) -> bool
        ensures { IsTrue result ↔ (bytes.now ≡ word_text self) }
    {
        self.text().as_bytes() == bytes
    }

    /// The reserved word of these bytes.
    #[tactic(auto, unfolding(crate::specs::Reserved::IsReserved))]
    pub fn of(bytes: &[u8]) -> Option<ReservedWord>
        ensures { MatchOption result (IsReserved bytes.now → ⊥) (λ w. bytes.now ≡ word_text w) }
    {
        for word in &WORDS {
            if word.is_spelled(bytes) {
                return Some(*word);
            }
        }
        None
    }
}

/// Whether the bytes spell a reserved word.
#[tactic(auto, unfolding(crate::specs::Reserved::IsReserved))]
pub(crate) fn is_reserved(bytes: &[u8]) -> bool
    ensures { IsTrue result ↔ IsReserved bytes.now }
{
    ReservedWord::of(bytes).is_some()
}
