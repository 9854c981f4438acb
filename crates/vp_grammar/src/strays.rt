//! The first variable of a piece that may not stand there.
ghost use Rattle.std.specs.Prelude.{◌≡◌, ◌≤◌, ◌<◌, ◌^◌, length};
ghost use Rattle.vp_grammar.specs.Strays.{first_stray, fits, is_control, is_control_number, is_due, is_known, is_set, is_state_number, kinds_of, set_behind, variable_span};

use crate::terminal::{Span, Symbol, Terminal};
use vp_lex::ReservedWord;
use vp_terms::{Cmp, Kinds, Places, Var};

/// What may stand in a piece, and what stands behind the names that it sets.
#[derive(Clone, Copy, Debug, PartialEq, Eq)]
pub enum Rule {
    /// Variables of these kinds; no name is set.
    Plain(Kinds),
    /// A controller: a name before `:=` is a control's.
    Controller,
    /// A flow: a name before `'` is the state of the entry's number.
    Flow,
    /// A slack: a name before `from` is the state of the entry's number.
    Slack,
    /// A fallback: a name before `=` is the control of the entry's number.
    Fallback,
}

// Whether the name is declared and its variable may stand there.
fn is_known(kinds: Kinds, places: Places, variable: Option<Var>) -> bool
    ensures { result ≡ is_known kinds places variable }
{
    match variable {
        Some(variable) => variable.is_allowed(kinds, places),
        None => false,
    }
}

// Whether the name is a control's.
fn is_control(places: Places, variable: Option<Var>) -> bool
    ensures { result ≡ is_control places variable }
{
    match variable {
        Some(Var::Control(i)) => i < places.controls,
        _ => false,
    }
}

impl Rule {
    // Which variables may stand in the piece, beside the names that it sets.
    fn kinds(self) -> Kinds
        ensures { result ≡ kinds_of self }
    {
        match self {
            Rule::Plain(kinds) => kinds,
            Rule::Controller | Rule::Flow | Rule::Fallback => Kinds::MODEL,
            Rule::Slack => Kinds::SLACK,
        }
    }

    // Whether the piece sets a name in front of these terminals.
    fn is_set(self, rest: &[Terminal]) -> bool
        ensures { result ≡ is_set self rest.now }
    {
        match self {
            Rule::Plain(_) => false,
            Rule::Controller => matches!(rest, [Terminal::Symbol(Symbol::Assign), ..]),
            Rule::Flow => matches!(rest, [Terminal::Symbol(Symbol::Prime), ..]),
            Rule::Slack => matches!(rest, [Terminal::Word(ReservedWord::From), ..]),
            Rule::Fallback => matches!(rest, [Terminal::Compare(Cmp::Eq), ..]),
        }
    }

    // Whether the piece may set the name there, where it set `set` names before.
    fn is_due(self, places: Places, set: usize, variable: Option<Var>) -> bool
        ensures { result ≡ is_due self places set variable }
    {
        match self {
            Rule::Plain(_) => false,
            Rule::Controller => is_control(places, variable),
            Rule::Flow | Rule::Slack => is_state_number(set, variable),
            Rule::Fallback => is_control_number(set, variable),
        }
    }

    // Whether the terminal may stand in front of these, where the piece set `set` names before.
    fn fits(self, places: Places, set: usize, terminal: Terminal, rest: &[Terminal]) -> bool
        ensures { result ≡ fits self places set terminal rest.now }
    {
        match terminal {
            Terminal::Name(_, variable) if self.is_set(rest) => self.is_due(places, set, variable),
            Terminal::Name(_, variable) => is_known(self.kinds(), places, variable),
            Terminal::Variable(_, variable) => is_known(self.kinds(), places, variable),
            _ => true,
        }
    }

    // How many names the piece set up to the terminal.
    fn set_behind(self, set: usize, terminal: Terminal, rest: &[Terminal]) -> usize
        requires { set < 2 ^ 32 }
        ensures { result ≡ set_behind self set terminal rest.now }
    {
        match terminal {
            Terminal::Name(_, _) if self.is_set(rest) => set + 1,
            _ => set,
        }
    }
}

// Whether the variable is the state of that number.
fn is_state_number(number: usize, variable: Option<Var>) -> bool
    ensures { result ≡ is_state_number number variable }
{
    match variable {
        Some(Var::State(i)) => i as usize == number,
        _ => false,
    }
}

// Whether the variable is the control of that number.
fn is_control_number(number: usize, variable: Option<Var>) -> bool
    ensures { result ≡ is_control_number number variable }
{
    match variable {
        Some(Var::Control(i)) => i as usize == number,
        _ => false,
    }
}

// Where a name, next name or `tau` stands.
fn variable_span(terminal: Terminal) -> Option<Span>
    ensures { result ≡ variable_span terminal }
{
    match terminal {
        Terminal::Name(span, _) | Terminal::Variable(span, _) => Some(span),
        _ => None,
    }
}

/// Where the first name, next name or `tau` of a piece stands that isn't declared, may not stand there
/// or isn't the one that is due. Of entries the one that is due is that of the entry's number, from 0.
pub fn first_stray(rule: Rule, places: Places, terminals: &[Terminal]) -> Option<Span>
    requires { length terminals.now ≤ 1048576 }
    ensures { result ≡ first_stray rule places 0 terminals.now }
{
    let mut set = 0;
    for (i, terminal) in terminals.iter().enumerate() {
        let rest = &terminals[i + 1..];
        if !rule.fits(places, set, *terminal, rest) {
            return variable_span(*terminal);
        }
        set = rule.set_behind(set, *terminal, rest);
    }
    None
}
