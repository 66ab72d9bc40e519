//! What a reader of a report rests on.
ghost use Rattle.std.specs.Prelude.{◌≡◌, ℕ, List, true};
ghost use Rattle.std.specs.List.{filter, list_all};
ghost use Rattle.wf_tap.specs.Junit.{xml};
ghost use Rattle.wf_tap.specs.Laws.{is_one_line, point_lines, tells_outcome, IsXmlText};
ghost use Rattle.wf_tap.specs.Tap.{points, tap_lines};
ghost use Rattle.wf_tap.specs.declared.report.Results.{Results};

/// The lines that begin as an outcome's does are those of the outcomes, each once and in order.
pub fn each_outcome_has_one_line()
    ensures { (rs : List Results) → filter tells_outcome (tap_lines rs) ≡ point_lines 1 (points rs) }
{}

/// No line is broken by what a name, a pointer or a value holds.
pub fn lines_are_whole()
    ensures { (rs : List Results) → list_all is_one_line (tap_lines rs) ≡ true }
{}

/// A text in XML begins no tag and no entity of its own, and ends no attribute.
pub fn a_text_in_xml_is_text()
    ensures { (s : List ℕ) → IsXmlText (xml s) }
{}
