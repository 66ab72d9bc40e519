//! What the table says, in the words of a graph. The call tells a caller so, and does nothing.
ghost use Rattle.std.specs.Prelude.{◌≡◌, ◌<◌, ◌↔◌, ℕ, List, length, true};
ghost use Rattle.wf_paths.specs.Path.{IsPath};
ghost use Rattle.wf_paths.specs.Table.{at, edge_of, paths_of};

/// The table says exactly which node leads to which, whatever the nodes name. A number that is named and belongs to no node
/// leads on, but has no place in the table; it leads to itself nowhere, so for cycles no premise is needed.
pub fn paths_are_exact()
    ensures paths { (nodes : List (List ℕ)) (a p : ℕ) → p < length nodes → (at (paths_of nodes) a p ≡ true) ↔ IsPath (edge_of nodes) p a }
    ensures cycles { (nodes : List (List ℕ)) (a : ℕ) → (at (paths_of nodes) a a ≡ true) ↔ IsPath (edge_of nodes) a a }
{}
