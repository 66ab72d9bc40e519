//! Laws of the grammar, as promises of functions that do nothing.
ghost use Rattle.std.specs.Prelude.{◌≡◌, ◌↔◌, ℕ, List, Some, chars};
ghost use Rattle.wf_expr.specs.Text.{template_in};
ghost use Rattle.wf_expr.specs.Spells.{Derives, Spells, IsTooLong, Outcome};
ghost use Rattle.wf_template.specs.TemplateTree.{TemplateTree};

/// Promises that no text has two templates or two lengths of its first too long expression, and does nothing.
pub fn no_two_templates()
    ensures one_template { (text : List ℕ) (x y : TemplateTree) → Derives (chars text) x → Derives (chars text) y → x ≡ y }
    ensures one_length { (text : List ℕ) (m n : ℕ) → IsTooLong (chars text) m → IsTooLong (chars text) n → m ≡ n }
    ensures not_both { (text : List ℕ) (t : TemplateTree) (n : ℕ) → Spells (chars text) t → IsTooLong (chars text) n → ⊥ }
{}

/// Promises that every text spells a template, has a place where it goes wrong, or has too long an expression, and
/// does nothing. Places and lengths count Unicode scalar values.
pub fn a_template_or_a_fault()
    ensures { (text : List ℕ) → Outcome (chars text) }
{}

/// Promises that the template of a text as a function of its bytes is the one that the text spells, and does nothing.
pub fn the_template_of_a_text()
    ensures { (text : List ℕ) (t : TemplateTree) → (template_in text ≡ Some t) ↔ Spells (chars text) t }
{}
