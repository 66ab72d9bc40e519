//! What waiting for oneself means.
ghost use Rattle.std.specs.Prelude.{◌≡◌, ◌↔◌, ℕ, List, true};
ghost use Rattle.wf_paths.specs.Path.{IsPath};
ghost use Rattle.wf_paths.specs.Table.{at, edge_of};
ghost use Rattle.wf_val.specs.ValueTree.{Member};
ghost use Rattle.wf_after.specs.Waits.{nodes, paths_in};

/// An action of a graph waits for itself exactly where a path leads from it to itself, along the entries of `runAfter`.
pub fn who_waits_for_itself()
    ensures { (graph : List Member) (place : ℕ) → (at (paths_in graph) place place ≡ true)
        ↔ IsPath (edge_of (nodes graph graph)) place place }
{
    wf_paths::paths_are_exact();
}
