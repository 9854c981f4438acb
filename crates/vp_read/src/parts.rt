//! One formula, expression or certificate from some tokens of a text.
ghost use Rattle.std.specs.Prelude.{◌≡◌, ◌≤◌, length, map, All, IfOk, IsTrue};
ghost use Rattle.vp_terms.specs.Places.{place_count};
ghost use Rattle.vp_terms.specs.Certificates.{IsCertificate};
ghost use Rattle.vp_terms.specs.WellFormed.{comparisons, in_certificate, is_good_cert, is_good_expr, is_good_formula, places_of};
ghost use Rattle.vp_terms.specs.Tree.{expr_tree, formula_tree};
ghost use Rattle.vp_grammar.specs.Reads.{Spells};
ghost use Rattle.vp_grammar.specs.FormulaReads.{SpellsFormula};
ghost use Rattle.vp_grammar.specs.Certificates.{SpellsCert};
ghost use Rattle.vp_terms.specs.Packages.{cert_tree};
ghost use Rattle.vp_read.specs.Naming.{StandsIn};
ghost use Rattle.vp_read.specs.Reading.{AreConsecutive, ReadsPart};
ghost use Rattle.vp_read.specs.Parts.{GivesKnown, GivesPart};

use crate::fault::ReadErr;
use crate::laws::parts_are_well_formed;
use crate::naming::{Scope, known_terminals};
use crate::pieces::is_deep;
use crate::sections::refusal;
use crate::strays::check_variables;
use crate::terminals::terminals;
use std::alloc::Global;
use vp_grammar::{ParseErr, Rule, Terminal, whole_certificate, whole_expression, whole_formula};
use vp_lex::Token;
use vp_terms::{Cert, Expr, Formula, Kinds, Names};

// The terminals of the tokens, which are not deep, with the variables that their names name.
fn known_part(
    alloc: Global,
    text: &[u8],
    tokens: &[Token],
    names: &Names,
) -> Result<Vec<Terminal>, ReadErr>
    requires tokens { AreConsecutive text.now tokens.now }
    requires length { length text.now ≤ 1048576 }
    requires few { place_count (places_of names.now) ≤ 32 }
    ensures gives { GivesKnown text.now tokens.now names.now result }
    ensures within { IfOk result (λ v. All (StandsIn text.now) v.items) }
    ensures few { IfOk result (λ v. length v.items ≤ 1048576) }
{
    let terminals = terminals(alloc, text, tokens)?;
    if is_deep(&terminals) {
        return Err(ReadErr::Deep { piece: 0 });
    }
    let scope = Scope::of(alloc, names)?;
    let known = known_terminals(alloc, text, &scope, &terminals)?;
    Ok(known)
}

// What was read of these terminals, where each of their variables may stand in a certificate.
fn declared_part<T: Drop>(
    alloc: Global,
    text: &[u8],
    names: &Names,
    known: &[Terminal],
    read: Result<T, ParseErr>,
) -> Result<T, ReadErr>
    requires within { All (StandsIn text.now) known.now }
    requires few { length known.now ≤ 1048576 }
    requires names { place_count (places_of names.now) ≤ 32 }
    ensures { GivesPart text.now (places_of names.now) known.now read result }
{
    match read {
        Ok(part) => {
            let rule = Rule::Plain(Kinds::CERTIFICATE);
            match check_variables(alloc, text, rule, names.places(), 0, known) {
                Ok(()) => Ok(part),
                Err(why) => Err(why),
            }
        }
        Err(why) => Err(refusal(0, why)),
    }
}

/// Reads one whole formula from consecutive tokens of a text of at most 1,048,576 bytes. The tokens
/// count as the one piece 0: it is deep beyond 2,048 tokens or 32 open brackets. Its variables are those
/// of a certificate, of at most 32. The first that holds of `Number`, `Deep`, `Section` and `Undeclared`
/// is told, the last three with piece 0.
pub fn read_formula(
    alloc: Global,
    text: &[u8],
    tokens: &[Token],
    names: &Names,
) -> Result<Formula, ReadErr>
    requires tokens { AreConsecutive text.now tokens.now }
    requires length { length text.now ≤ 1048576 }
    requires few { place_count (places_of names.now) ≤ 32 }
    ensures exact { ReadsPart formula_tree SpellsFormula text.now tokens.now names.now result }
    ensures well_formed { IfOk result (λ f. IsTrue (is_good_formula in_certificate (places_of names.now) f)) }
    ensures size { IfOk result (λ f. comparisons f ≤ 2048) }
{
    parts_are_well_formed();
    let known = known_part(alloc, text, tokens, names)?;
    let read = whole_formula(alloc, &known);
    declared_part(alloc, text, names, &known, read)
}

/// Reads one whole expression from consecutive tokens of a text, as `read_formula` reads a formula: the
/// same limits of depth, and the same refusals in their order.
pub fn read_expr(
    alloc: Global,
    text: &[u8],
    tokens: &[Token],
    names: &Names,
) -> Result<Expr, ReadErr>
    requires tokens { AreConsecutive text.now tokens.now }
    requires length { length text.now ≤ 1048576 }
    requires few { place_count (places_of names.now) ≤ 32 }
    ensures exact { ReadsPart expr_tree Spells text.now tokens.now names.now result }
    ensures well_formed { IfOk result (λ e. IsTrue (is_good_expr in_certificate (places_of names.now) e)) }
{
    parts_are_well_formed();
    let known = known_part(alloc, text, tokens, names)?;
    let read = whole_expression(alloc, &known);
    declared_part(alloc, text, names, &known, read)
}

/// Reads one whole certificate, from its `cert` to its last `;`, from consecutive tokens of a text, as
/// `read_formula` reads a formula: the same limits of depth, and the same refusals in their order.
pub fn read_cert(
    alloc: Global,
    text: &[u8],
    tokens: &[Token],
    names: &Names,
) -> Result<Cert, ReadErr>
    requires tokens { AreConsecutive text.now tokens.now }
    requires length { length text.now ≤ 1048576 }
    requires few { place_count (places_of names.now) ≤ 32 }
    ensures exact { ReadsPart cert_tree SpellsCert text.now tokens.now names.now result }
    ensures well_formed { IfOk result (λ c. IsTrue (is_good_cert (places_of names.now) c)) }
    ensures certificate { IfOk result IsCertificate }
{
    parts_are_well_formed();
    let known = known_part(alloc, text, tokens, names)?;
    let read = whole_certificate(alloc, &known);
    declared_part(alloc, text, names, &known, read)
}
