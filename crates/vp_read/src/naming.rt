//! Names to variables.
ghost use Rattle.std.specs.Prelude.{◌≡◌, ◌≤◌, ◌<◌, ℕ, List, take, length, map, string_bytes, All, IfOk};
ghost use Rattle.vp_read.specs.Spelling.{span_text};
ghost use Rattle.vp_read.specs.Naming.{AreFew, IsWithin, StandsIn, known, next_variable, variable};
ghost use Rattle.vp_read.specs.Numbers.{AreNumbered};

use crate::numbers::{number_of, numbers};
use indexmap::IndexMap;
use std::alloc::{AllocError, Global};
use vp_grammar::{Span, Terminal};
use vp_terms::{Names, Var};

/// The bytes of a span.
pub(crate) fn span_text(text: &[u8], span: Span) -> &[u8]
    requires forward { span.from ≤ span.to }
    requires within { span.to ≤ length text.now }
    ensures { result.now ≡ span_text text.now span }
{
    &text[span.from as usize..span.to as usize]
}

/// The bytes of a span as a string.
pub(crate) fn string_of(alloc: Global, text: &[u8], span: Span) -> Result<String, AllocError>
    requires { IsWithin text.now span }
    ensures { IfOk result (λ name. string_bytes name ≡ span_text text.now span) }
{
    match str::from_utf8(span_text(text, span)) {
        Ok(name) => name.to_string(alloc),
        // The bytes of such a span are a string's.
        Err(_) => Ok(String::new(alloc)),
    }
}

/// The names of a package with the number of each, for looking names up.
#[derive(Drop)]
pub(crate) struct Scope<'a> {
    names: &'a Names,
    params: IndexMap<&'a [u8], u32>,
    states: IndexMap<&'a [u8], u32>,
    controls: IndexMap<&'a [u8], u32>,
    ghost numbered: { AreNumbered names.now params states controls },
}

impl<'a> Scope<'a> {
    /// The scope of these names.
    pub(crate) fn of(alloc: Global, names: &'a Names) -> Result<Scope<'a>, AllocError>
        requires { AreFew names.now }
        ensures { IfOk result (λ s. s.names.now ≡ names.now) }
    {
        Ok(Scope {
            names,
            params: numbers(alloc, names.params.get())?,
            states: numbers(alloc, names.states.get())?,
            controls: numbers(alloc, names.controls.get())?,
        })
    }

    // The variable that a name names: a parameter, a state or a control.
    fn variable(&self, name: &[u8]) -> Option<Var>
        ensures { result ≡ variable self.now.names.now name.now }
    {
        number_of(&self.params, name)
            .map(Var::Param)
            .or(number_of(&self.states, name).map(Var::State))
            .or(number_of(&self.controls, name).map(Var::Control))
    }

    // The variable that a next name names, by the name before its `@`.
    fn next_variable(&self, name: &[u8]) -> Option<Var>
        ensures { result ≡ next_variable self.now.names.now name.now }
    {
        number_of(&self.states, name)
            .map(Var::NextState)
            .or(number_of(&self.controls, name).map(Var::NextControl))
    }
}

// A terminal with the variable that its name names.
fn known(text: &[u8], scope: &Scope, terminal: Terminal) -> Terminal
    requires { StandsIn text.now terminal }
    ensures { result ≡ known text.now scope.now.names.now terminal }
{
    match terminal {
        Terminal::Name(span, _) => Terminal::Name(span, scope.variable(span_text(text, span))),
        Terminal::Variable(span, None) => {
            let spelling = span_text(text, span);
            let name = &spelling[..spelling.len().saturating_sub(1)];
            Terminal::Variable(span, scope.next_variable(name))
        }
        _ => terminal,
    }
}

/// The terminals with the variables that their names name.
pub(crate) fn known_terminals(
    alloc: Global,
    text: &[u8],
    scope: &Scope,
    terminals: &[Terminal],
) -> Result<Vec<Terminal>, AllocError>
    requires { All (StandsIn text.now) terminals.now }
    ensures { IfOk result (λ v. v.items ≡ map (known text.now scope.now.names.now) terminals.now) }
{
    let mut found = Vec::new(alloc);
    for terminal in terminals {
        found.push(known(text, scope, *terminal))?;
    }
    Ok(found)
}
