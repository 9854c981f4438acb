//! Laws of the grammar: the contracts of these functions say them, and their bodies do nothing.
ghost use Rattle.std.specs.Prelude.{◌≡◌, ◌≤◌, IsTrue, List, None, length};
ghost use Rattle.std.specs.List.{list_all};
ghost use Rattle.vp_terms.specs.Tree.{ExprTree, FormulaTree, expr_tree, formula_tree};
ghost use Rattle.vp_terms.specs.WellFormed.{is_good_expr, is_good_formula, comparisons};
ghost use Rattle.vp_terms.specs.declared.expr.Expr.{Expr};
ghost use Rattle.vp_terms.specs.declared.expr.Places.{Places};
ghost use Rattle.vp_terms.specs.declared.formula.Formula.{Formula};
ghost use Rattle.vp_terms.specs.declared.well_formed.Kinds.{Kinds};
ghost use Rattle.vp_grammar.specs.FormulaReads.{SpellsFormula, SpellsFormulaPiece};
ghost use Rattle.vp_grammar.specs.Reads.{Spells};
ghost use Rattle.vp_grammar.specs.Strays.{first_stray, is_declared};
ghost use Rattle.vp_grammar.specs.declared.strays.Rule.TheVariants.{Plain};
ghost use Rattle.vp_grammar.specs.declared.terminal.Terminal.{Terminal};
ghost use Rattle.vp_lex.specs.declared.word.ReservedWord.{ReservedWord};

/// Terminals are those of at most one expression.
pub fn one_expression()
    ensures { (ts : List Terminal) (t u : ExprTree) → Spells ts t → Spells ts u → t ≡ u }
{}

/// Terminals are those of at most one formula, and so are those of a piece.
pub fn one_formula()
    ensures whole { (ts : List Terminal) (f g : FormulaTree) → SpellsFormula ts f → SpellsFormula ts g →
        f ≡ g }
    ensures piece { (w : ReservedWord) (ts : List Terminal) (f g : FormulaTree) → SpellsFormulaPiece w ts f →
        SpellsFormulaPiece w ts g → f ≡ g }
{}

/// Terminals of which no variable strays are those of a well formed expression. Where their names are
/// declared, none strays from a well formed one.
pub fn good_expressions()
    ensures good { (k : Kinds) (p : Places) (e : Expr) (ts : List Terminal) → Spells ts (expr_tree e) →
        first_stray (Plain k) p 0 ts ≡ None → IsTrue (is_good_expr k p e) }
    ensures kept { (k : Kinds) (p : Places) (e : Expr) (ts : List Terminal) → Spells ts (expr_tree e) →
        IsTrue (list_all is_declared ts) → IsTrue (is_good_expr k p e) →
        first_stray (Plain k) p 0 ts ≡ None }
{}

/// Terminals of which no variable strays are those of a well formed formula. Where their names are
/// declared, none strays from a well formed one. A formula has at most as many comparisons and `true`s
/// as there are terminals.
pub fn whole_formulas()
    ensures formulas { (k : Kinds) (p : Places) (f : Formula) (ts : List Terminal) →
        SpellsFormula ts (formula_tree f) → first_stray (Plain k) p 0 ts ≡ None →
        IsTrue (is_good_formula k p f) }
    ensures kept { (k : Kinds) (p : Places) (f : Formula) (ts : List Terminal) →
        SpellsFormula ts (formula_tree f) → IsTrue (list_all is_declared ts) →
        IsTrue (is_good_formula k p f) → first_stray (Plain k) p 0 ts ≡ None }
    ensures sizes { (f : Formula) (ts : List Terminal) → SpellsFormula ts (formula_tree f) →
        comparisons f ≤ length ts }
{}

/// The formula of a piece in which no variable strays is well formed. Where the piece's names are
/// declared, none strays from a well formed one. The formula has at most as many comparisons and `true`s
/// as the piece has terminals.
pub fn good_formulas()
    ensures conditions { (w : ReservedWord) (k : Kinds) (p : Places) (f : Formula) (ts : List Terminal) →
        SpellsFormulaPiece w ts (formula_tree f) → first_stray (Plain k) p 0 ts ≡ None →
        IsTrue (is_good_formula k p f) }
    ensures kept { (w : ReservedWord) (k : Kinds) (p : Places) (f : Formula) (ts : List Terminal) →
        SpellsFormulaPiece w ts (formula_tree f) → IsTrue (list_all is_declared ts) →
        IsTrue (is_good_formula k p f) → first_stray (Plain k) p 0 ts ≡ None }
    ensures sizes { (w : ReservedWord) (f : Formula) (ts : List Terminal) →
        SpellsFormulaPiece w ts (formula_tree f) → comparisons f ≤ length ts }
{}
