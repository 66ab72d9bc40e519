//! What the definitions of pages say, in other words. Each call tells a caller so, and does nothing.
ghost use Rattle.std.specs.Prelude.{◌≡◌, ◌++◌, ℕ, List, [], false, flat_map};
ghost use Rattle.std.specs.List.{AllByRecursion};
ghost use Rattle.wf_html.specs.Html.{Piece, escape, piece_text, written};
ghost use Rattle.wf_html.specs.Safe.{ReadsAs};
ghost use Rattle.wf_html.specs.Still.{IsHead, IsStill, has, running};
ghost use Rattle.wf_html.specs.Tags.{close_text, open_text};
ghost use Rattle.wf_html.specs.declared.tag.Tag.{Tag};

/// What is written of pieces is the text of each in turn: a literal of a tag, or an escaped text.
pub fn a_page_is_its_pieces()
    ensures { (done : List ℕ) (ps : List Piece) → written done ps ≡ done ++ flat_map piece_text ps }
{}

/// An escaped text has none of `<`, `>`, `"` and `'`, and `&` only at the head of one of five references; and what is read of it is the
/// text.
pub fn what_is_said_is_read_back()
    ensures { (text : List ℕ) → ReadsAs (escape text) text }
{}

/// A page begins by saying that it is HTML, and that a browser may run nothing in it and fetch nothing for it. What follows is a style, in
/// which no tag stands.
pub fn a_page_opens_with_its_policy()
    ensures { IsHead (open_text Tag.Page) }
{}

/// In what is written of a tag nothing runs, and nothing is fetched for it: it has no script, no address of one, no handler of events, no
/// source and no link, and its style imports nothing and has no pictures.
pub fn tags_stand_still()
    ensures opened { (t : Tag) → IsStill (open_text t) }
    ensures closed { (t : Tag) → IsStill (close_text t) }
{}

/// Whatever is said in a page, no element of it runs anything, or has anything fetched for it: nowhere in its text a `<` is followed by the
/// name of such a one, in small letters or in capitals.
pub fn no_page_runs_anything()
    ensures { (ps : List Piece) → AllByRecursion (λ word. has (written [] ps) word ≡ false) running }
{}
