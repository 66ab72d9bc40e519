//! Actions by their names.
use wf_def::Action;
use wf_lists::Keyed;
use wf_val::Name;

/// An action, by its name.
#[derive(Drop)]
pub struct Named<'a> {
    pub action: &'a Action,
}

impl<'a> Keyed for Named<'a> {
    type Key = Name;

    ghost use Rattle.wf_def.specs.declared.graph.Action.{out-Action};

    ghost key_of = { λ n. (out-Action n.action.now).name };

    fn key(&self) -> &Name {
        &self.action.name
    }
}
