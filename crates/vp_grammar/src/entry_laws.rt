//! What the grammar of lists and certificates implies: terminals have at most one tree, and trees of
//! terminals of which no variable strays are well formed.
ghost use Rattle.std.specs.Prelude.{◌≡◌, ℕ, IsTrue, List, None, map};
ghost use Rattle.std.specs.List.{list_all};
ghost use Rattle.vp_terms.specs.declared.expr.Expr.{Expr};
ghost use Rattle.vp_terms.specs.declared.expr.Places.{Places};
ghost use Rattle.vp_terms.specs.declared.package.Cert.{Cert};
ghost use Rattle.vp_terms.specs.declared.package.Slack.{Slack};
ghost use Rattle.vp_terms.specs.Tree.{ExprTree, expr_tree};
ghost use Rattle.vp_terms.specs.WellFormed.{in_model, in_time, in_certificate, is_good_expr, is_good_slack, is_good_cert};
ghost use Rattle.vp_grammar.specs.declared.entries.Mark.{Mark};
ghost use Rattle.vp_grammar.specs.declared.entries.Mark.TheVariants.{Rate, Setting};
ghost use Rattle.vp_grammar.specs.declared.terminal.Span.{Span};
ghost use Rattle.vp_grammar.specs.declared.terminal.Terminal.{Terminal};
ghost use Rattle.vp_lex.specs.declared.word.ReservedWord.{ReservedWord};
ghost use Rattle.vp_grammar.specs.Entries.{SpellsNames, SpellsEntries, SpellsBounds, SpellsTimes};
ghost use Rattle.vp_terms.specs.Packages.{slack_tree};
ghost use Rattle.vp_terms.specs.Certificates.{IsCertificate};
ghost use Rattle.vp_grammar.specs.Certificates.{SpellsCert, is_whole_number};
ghost use Rattle.vp_terms.specs.Packages.{CertTree, cert_tree};
ghost use Rattle.vp_grammar.specs.Strays.{first_stray, is_declared};
ghost use Rattle.vp_grammar.specs.declared.strays.Rule.TheVariants as rule;

/// The same terminals are no two lists of names.
pub fn one_list_of_names()
    ensures { (w : ReservedWord) (least : ℕ) (ts : List Terminal) (a b : List Span) → SpellsNames w least ts a → SpellsNames w least ts b → a ≡ b }
{}

/// The same terminals are no two lists of entries.
pub fn one_list_of_entries()
    ensures { (w : ReservedWord) (m : Mark) (ts : List Terminal) (a b : List ExprTree) → SpellsEntries w m ts a → SpellsEntries w m ts b → a ≡ b }
{}

/// The same terminals are no two lists of bounds.
pub fn one_list_of_bounds()
    ensures { (ts : List Terminal) (a b : List (ExprTree × ExprTree)) → SpellsBounds ts a → SpellsBounds ts b → a ≡ b }
{}

/// The same terminals are no two times.
pub fn one_time()
    ensures { (ts : List Terminal) (t u : ExprTree × ExprTree) → SpellsTimes ts t → SpellsTimes ts u → t ≡ u }
{}

/// The same terminals are no two certificates.
pub fn one_certificate()
    ensures { (ts : List Terminal) (t u : CertTree) → SpellsCert ts t → SpellsCert ts u → t ≡ u }
{}

/// Entries of which no variable strays have well formed expressions.
pub fn good_entries()
    ensures rates { (p : Places) (w : ReservedWord) (ts : List Terminal) (es : List Expr) →
        SpellsEntries w Rate ts (map expr_tree es) → first_stray rule.Flow p 0 ts ≡ None →
        IsTrue (list_all (is_good_expr in_model p) es) }
    ensures settings { (p : Places) (w : ReservedWord) (ts : List Terminal) (es : List Expr) →
        SpellsEntries w Setting ts (map expr_tree es) → first_stray rule.Fallback p 0 ts ≡ None →
        IsTrue (list_all (is_good_expr in_model p) es) }
{}

/// Bounds of which no variable strays are well formed.
pub fn good_bounds()
    ensures { (p : Places) (ts : List Terminal) (ss : List Slack) → SpellsBounds ts (map slack_tree ss) →
        first_stray rule.Slack p 0 ts ≡ None → IsTrue (list_all (is_good_slack p) ss) }
{}

/// Times of which no variable strays are well formed.
pub fn good_times()
    ensures { (p : Places) (e f : Expr) (ts : List Terminal) → SpellsTimes ts (expr_tree e, expr_tree f) →
        first_stray (rule.Plain in_time) p 0 ts ≡ None →
        IsTrue (is_good_expr in_time p e) × IsTrue (is_good_expr in_time p f) }
{}

/// Certificates of which no variable strays are well formed. Where their names are declared, none
/// strays from a well formed one. Each begins with its one `pos`, and has
/// whole numbers alone, where the numbers that are told as wholes are.
pub fn good_certificates()
    ensures variables { (p : Places) (c : Cert) (ts : List Terminal) → SpellsCert ts (cert_tree c) →
        first_stray (rule.Plain in_certificate) p 0 ts ≡ None → IsTrue (is_good_cert p c) }
    ensures kept { (p : Places) (c : Cert) (ts : List Terminal) → SpellsCert ts (cert_tree c) →
        IsTrue (list_all is_declared ts) → IsTrue (is_good_cert p c) →
        first_stray (rule.Plain in_certificate) p 0 ts ≡ None }
    ensures form { (c : Cert) (ts : List Terminal) → SpellsCert ts (cert_tree c) →
        IsTrue (list_all is_whole_number ts) → IsCertificate c }
{}
