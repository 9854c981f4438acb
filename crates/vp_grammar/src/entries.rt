//! The pieces that list names, expressions or pairs of expressions, from terminals.
ghost use Rattle.std.specs.Prelude.{◌≡◌, ◌<◌, ◌≤◌, length, map, List, MatchOption, IfOk};
ghost use Rattle.vp_terms.specs.Tree.{expr_tree};
ghost use Rattle.vp_grammar.specs.Reads.{Reads, ReadsAll};
ghost use Rattle.vp_grammar.specs.Entries.{SpellsNames, SpellsEntries, SpellsBounds, SpellsTimes, mark_then};
ghost use Rattle.vp_terms.specs.Packages.{slack_tree};
ghost use Rattle.vp_grammar.specs.EntryReads.{Listed, IsName, MaybeNames, IsMarked, IsEntry, IsPair, IsBounded, IsBound};
ghost use Rattle.vp_grammar.specs.declared.entries.Mark.TheVariants.{Setting};
ghost use Rattle.vp_grammar.specs.declared.terminal.Span.{Span};
ghost use Rattle.vp_grammar.specs.declared.terminal.Symbol.TheVariants as symbol;
ghost use Rattle.vp_grammar.specs.declared.terminal.Terminal.TheVariants as terminal;
ghost use Rattle.vp_grammar.specs.declared.terminal.Terminal.{Terminal};

use crate::expression::expression;
use crate::fault::ParseErr;
use crate::front::{after_symbol, after_word, first, is_only};
use crate::terminal::{Span, Symbol, Terminal};
use std::alloc::Global;
use vp_lex::ReservedWord;
use vp_terms::{Cmp, Expr, Slack};

/// What stands between a name and its expression.
#[derive(Clone, Copy, Debug, PartialEq, Eq)]
pub enum Mark {
    /// `'` and `=`, before a rate.
    Rate,
    /// `=`, before a setting.
    Setting,
}

/// The name in front, and what follows it.
fn name(terminals: &[Terminal]) -> Option<(Span, &[Terminal])>
    ensures { MatchOption result ((span : Span) (rest : List Terminal) → IsName terminals.now span rest → ⊥) (λ x. IsName terminals.now x.0 x.1.now) }
{
    match first(terminals) {
        Some((Terminal::Name(span, _), rest)) => Some((span, rest)),
        _ => None,
    }
}

/// What follows the comparison `=` in front.
fn after_equals(terminals: &[Terminal]) -> Option<&[Terminal]>
    ensures { MatchOption result ((rest : List Terminal) → terminals.now ≡ mark_then Setting rest → ⊥) (λ rest. terminals.now ≡ mark_then Setting rest.now) }
{
    match first(terminals) {
        Some((Terminal::Compare(Cmp::Eq), rest)) => Some(rest),
        _ => None,
    }
}

/// What follows the mark in front.
fn after_mark(mark: Mark, terminals: &[Terminal]) -> Option<&[Terminal]>
    ensures { MatchOption result ((rest : List Terminal) → terminals.now ≡ mark_then mark rest → ⊥) (λ rest. terminals.now ≡ mark_then mark rest.now) }
{
    match mark {
        Mark::Rate => match after_symbol(Symbol::Prime, terminals) {
            Some(rest) => after_equals(rest),
            None => None,
        },
        Mark::Setting => after_equals(terminals),
    }
}

/// What follows the name and the mark in front.
fn marked(mark: Mark, terminals: &[Terminal]) -> Option<&[Terminal]>
    ensures { MatchOption result ((rest : List Terminal) → IsMarked mark terminals.now rest → ⊥) (λ rest. IsMarked mark terminals.now rest.now) }
{
    match name(terminals) {
        Some((_, rest)) => after_mark(mark, rest),
        None => None,
    }
}

/// What follows the name and the `from` in front.
fn bounded(terminals: &[Terminal]) -> Option<&[Terminal]>
    ensures { MatchOption result ((rest : List Terminal) → IsBounded terminals.now rest → ⊥) (λ rest. IsBounded terminals.now rest.now) }
{
    match name(terminals) {
        Some((_, rest)) => after_word(ReservedWord::From, rest),
        None => None,
    }
}

/// The expression of the entry in front, and what follows it.
fn entry(alloc: Global, mark: Mark, terminals: &[Terminal]) -> Result<(Expr, &[Terminal]), ParseErr>
    ensures reads { Reads (λ x. expr_tree x.0) (λ x. x.1.now) (IsEntry mark terminals.now) result }
    ensures shorter { IfOk result (λ x. length x.1.now < length terminals.now) }
{
    match marked(mark, terminals) {
        Some(more) => expression(alloc, more),
        None => Err(ParseErr::Form),
    }
}

/// Two expressions with `to` between, and what follows them.
fn pair(alloc: Global, terminals: &[Terminal]) -> Result<(Expr, Expr, &[Terminal]), ParseErr>
    ensures reads { Reads (λ x. (expr_tree x.0, expr_tree x.1)) (λ x. x.2.now) (IsPair terminals.now) result }
    ensures shorter { IfOk result (λ x. length x.2.now < length terminals.now) }
{
    let (low, rest) = expression(alloc, terminals)?;
    match after_word(ReservedWord::To, rest) {
        Some(more) => {
            let (high, after) = expression(alloc, more)?;
            Ok((low, high, after))
        }
        None => Err(ParseErr::Form),
    }
}

/// The bound in front, and what follows it.
fn bound(alloc: Global, terminals: &[Terminal]) -> Result<(Slack, &[Terminal]), ParseErr>
    ensures reads { Reads (λ x. slack_tree x.0) (λ x. x.1.now) (IsBound terminals.now) result }
    ensures shorter { IfOk result (λ x. length x.1.now < length terminals.now) }
{
    match bounded(terminals) {
        Some(more) => {
            let (low, high, rest) = pair(alloc, more)?;
            Ok((Slack { low, high }, rest))
        }
        None => Err(ParseErr::Form),
    }
}

/// Names with commas between and their `;`, and what follows.
fn some_names(alloc: Global, terminals: &[Terminal]) -> Result<(Vec<Span>, &[Terminal]), ParseErr>
    ensures { Reads (λ x. x.0.items) (λ x. x.1.now) (Listed IsName (terminal.Symbol symbol.Comma) terminals.now) result }
{
    let Some((first, mut rest)) = name(terminals) else {
        return Err(ParseErr::Form);
    };
    let mut found = vec![in alloc; first]?;
    'names: while let Some(more) = after_symbol(Symbol::Comma, rest) {
        let Some((next, after)) = name(more) else {
            return Err(ParseErr::Form);
        };
        found.push(next)?;
        rest = after;
    }
    match after_symbol(Symbol::Semicolon, rest) {
        Some(after) => Ok((found, after)),
        None => Err(ParseErr::Form),
    }
}

/// No names or some, with their `;`, and what follows.
fn maybe_names(alloc: Global, terminals: &[Terminal]) -> Result<(Vec<Span>, &[Terminal]), ParseErr>
    ensures { Reads (λ x. x.0.items) (λ x. x.1.now) (MaybeNames terminals.now) result }
{
    match after_symbol(Symbol::Semicolon, terminals) {
        Some(rest) => Ok((Vec::new(alloc), rest)),
        None => some_names(alloc, terminals),
    }
}

/// The names behind this word: at least so many, with commas between and `;` at the end.
pub fn names(
    alloc: Global,
    word: ReservedWord,
    least: usize,
    terminals: &[Terminal],
) -> Result<Vec<Span>, ParseErr>
    ensures reads { ReadsAll (λ v. v.items) (SpellsNames word least terminals.now) result }
    ensures few { IfOk result (λ v. length v.items ≤ length terminals.now) }
{
    let Some(more) = after_word(word, terminals) else {
        return Err(ParseErr::Form);
    };
    let (found, rest) = maybe_names(alloc, more)?;
    if rest.is_empty() && least <= found.len() {
        Ok(found)
    } else {
        Err(ParseErr::Form)
    }
}

/// Entries with commas between and their `;`, and what follows.
fn entry_list(
    alloc: Global,
    mark: Mark,
    terminals: &[Terminal],
) -> Result<(Vec<Expr>, &[Terminal]), ParseErr>
    ensures { Reads (λ x. map expr_tree x.0.items) (λ x. x.1.now) (Listed (IsEntry mark) (terminal.Symbol symbol.Comma) terminals.now) result }
{
    let (first, mut rest) = entry(alloc, mark, terminals)?;
    let mut found = vec![in alloc; first]?;
    'entries: while let Some(more) = after_symbol(Symbol::Comma, rest) {
        let (value, after) = entry(alloc, mark, more)?;
        found.push(value)?;
        rest = after;
    }
    match after_symbol(Symbol::Semicolon, rest) {
        Some(after) => Ok((found, after)),
        None => Err(ParseErr::Form),
    }
}

/// The expressions of the entries behind this word, with commas between and `;` at the end.
pub fn whole_entries(
    alloc: Global,
    word: ReservedWord,
    mark: Mark,
    terminals: &[Terminal],
) -> Result<Vec<Expr>, ParseErr>
    ensures reads { ReadsAll (λ v. map expr_tree v.items) (SpellsEntries word mark terminals.now) result }
    ensures few { IfOk result (λ v. length v.items ≤ length terminals.now) }
{
    let Some(more) = after_word(word, terminals) else {
        return Err(ParseErr::Form);
    };
    let (found, rest) = entry_list(alloc, mark, more)?;
    if rest.is_empty() {
        Ok(found)
    } else {
        Err(ParseErr::Form)
    }
}

/// Bounds with commas between and their `;`, and what follows.
fn bound_list(alloc: Global, terminals: &[Terminal]) -> Result<(Vec<Slack>, &[Terminal]), ParseErr>
    ensures { Reads (λ x. map slack_tree x.0.items) (λ x. x.1.now) (Listed IsBound (terminal.Symbol symbol.Comma) terminals.now) result }
{
    let (first, mut rest) = bound(alloc, terminals)?;
    let mut found = vec![in alloc; first]?;
    'bounds: while let Some(more) = after_symbol(Symbol::Comma, rest) {
        let (slack, after) = bound(alloc, more)?;
        found.push(slack)?;
        rest = after;
    }
    match after_symbol(Symbol::Semicolon, rest) {
        Some(after) => Ok((found, after)),
        None => Err(ParseErr::Form),
    }
}

/// The bounds behind `slack`, with commas between and `;` at the end.
pub fn bounds(alloc: Global, terminals: &[Terminal]) -> Result<Vec<Slack>, ParseErr>
    ensures reads { ReadsAll (λ v. map slack_tree v.items) (SpellsBounds terminals.now) result }
    ensures few { IfOk result (λ v. length v.items ≤ length terminals.now) }
{
    let Some(more) = after_word(ReservedWord::Slack, terminals) else {
        return Err(ParseErr::Form);
    };
    let (found, rest) = bound_list(alloc, more)?;
    if rest.is_empty() {
        Ok(found)
    } else {
        Err(ParseErr::Form)
    }
}

/// The two expressions of `time`.
pub fn times(alloc: Global, terminals: &[Terminal]) -> Result<(Expr, Expr), ParseErr>
    ensures { ReadsAll (λ x. (expr_tree x.0, expr_tree x.1)) (SpellsTimes terminals.now) result }
{
    let Some(more) = after_word(ReservedWord::Time, terminals) else {
        return Err(ParseErr::Form);
    };
    let (low, high, rest) = pair(alloc, more)?;
    if is_only(Symbol::Semicolon, rest) {
        Ok((low, high))
    } else {
        Err(ParseErr::Form)
    }
}
