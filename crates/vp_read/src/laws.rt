//! Laws of packages and their texts: the contracts of these functions say them.
ghost use Rattle.std.specs.Prelude.{◌≡◌, ◌≢◌, ◌≤◌, All, IsTrue, List, ℕ};
ghost use Rattle.vp_terms.specs.Certificates.{IsCertificate};
ghost use Rattle.vp_terms.specs.Tree.{expr_tree, formula_tree};
ghost use Rattle.vp_terms.specs.WellFormed.{IsWellFormed, comparisons, in_certificate, is_good_cert, is_good_expr, is_good_formula, places_of};
ghost use Rattle.vp_terms.specs.declared.expr.Expr.{Expr};
ghost use Rattle.vp_terms.specs.declared.formula.Formula.{Formula};
ghost use Rattle.vp_terms.specs.declared.package.Cert.{Cert};
ghost use Rattle.vp_terms.specs.declared.package.Names.{Names};
ghost use Rattle.vp_terms.specs.declared.package.Package.{Package};
ghost use Rattle.vp_lex.specs.declared.token.Token.{Token};
ghost use Rattle.vp_grammar.specs.Certificates.{SpellsCert};
ghost use Rattle.vp_terms.specs.Packages.{cert_tree};
ghost use Rattle.vp_grammar.specs.FormulaReads.{SpellsFormula};
ghost use Rattle.vp_grammar.specs.Reads.{Spells};
ghost use Rattle.vp_read.specs.declared.fault.ReadErr.{ReadErr};
ghost use Rattle.vp_read.specs.declared.fault.ReadErr.TheVariants.{Memory};
ghost use Rattle.vp_terms.specs.Packages.{package_tree};
ghost use Rattle.vp_read.specs.Reading.{IsPackage, IsPart, IsReadOnce, Refuses};

use vp_grammar::controller_laws::{good_controllers, one_controller};
use vp_grammar::entry_laws::{
    good_bounds, good_certificates, good_entries, good_times, one_certificate, one_list_of_bounds,
    one_list_of_entries, one_list_of_names, one_time,
};
use vp_grammar::laws::{
    good_expressions, good_formulas, one_expression, one_formula, whole_formulas,
};
use vp_lex::laws::{one_spelling, one_tokenization};
use vp_terms::laws::{numbers_are_written, texts_write_one_number};

/// What a text is read as is well formed, and each certificate begins with its one `pos` and has whole
/// numbers alone.
pub fn packages_are_well_formed()
    ensures packages { (text : List ℕ) (pkg : Package) → IsPackage text pkg → IsWellFormed pkg }
    ensures certificates { (text : List ℕ) (pkg : Package) → IsPackage text pkg →
        All IsCertificate pkg.certs }
{
    good_formulas();
    good_controllers();
    good_entries();
    good_bounds();
    good_times();
    good_certificates();
    numbers_are_written();
}

/// A text is read in one way only, but for want of memory: as one package, whose parts are the same
/// trees, or with one refusal.
pub fn one_reading()
    ensures refused { (text : List ℕ) (e f : ReadErr) → Refuses text e → Refuses text f → e ≢ Memory →
        f ≢ Memory → e ≡ f }
    ensures apart { (text : List ℕ) (pkg : Package) (e : ReadErr) → IsPackage text pkg → Refuses text e →
        e ≢ Memory → ⊥ }
    ensures packages { (text : List ℕ) (p q : Package) → IsPackage text p → IsPackage text q →
        package_tree p ≡ package_tree q }
{
    one_tokenization();
    texts_write_one_number();
    one_spelling();
    one_list_of_names();
    one_formula();
    one_controller();
    one_list_of_entries();
    one_list_of_bounds();
    one_time();
    one_certificate();
}

/// What some tokens are read as is well formed as in a certificate. A formula has at most 2,048
/// comparisons and `true`s; a certificate begins with its one `pos` and has whole numbers alone.
pub fn parts_are_well_formed()
    ensures formulas { (text : List ℕ) (tokens : List Token) (names : Names) (f : Formula) →
        IsPart SpellsFormula text tokens names (formula_tree f) →
        IsTrue (is_good_formula in_certificate (places_of names) f) × (comparisons f ≤ 2048) }
    ensures expressions { (text : List ℕ) (tokens : List Token) (names : Names) (e : Expr) →
        IsPart Spells text tokens names (expr_tree e) →
        IsTrue (is_good_expr in_certificate (places_of names) e) }
    ensures certificates { (text : List ℕ) (tokens : List Token) (names : Names) (c : Cert) →
        IsPart SpellsCert text tokens names (cert_tree c) →
        IsTrue (is_good_cert (places_of names) c) × IsCertificate c }
{
    whole_formulas();
    good_expressions();
    good_certificates();
    numbers_are_written();
}

/// Tokens are read in one way only as a formula, as an expression and as a certificate, but for want of
/// memory.
pub fn parts_are_read_once()
    ensures formulas { (text : List ℕ) (tokens : List Token) (names : Names) →
        IsReadOnce SpellsFormula text tokens names }
    ensures expressions { (text : List ℕ) (tokens : List Token) (names : Names) →
        IsReadOnce Spells text tokens names }
    ensures certificates { (text : List ℕ) (tokens : List Token) (names : Names) →
        IsReadOnce SpellsCert text tokens names }
{
    texts_write_one_number();
    one_spelling();
    one_formula();
    one_expression();
    one_certificate();
}
