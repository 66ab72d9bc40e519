//! A look made from data.
ghost use Rattle.std.specs.Prelude.{◌≡◌, [], None, IfOk, option_map};
ghost use Rattle.wf_val.specs.Seen.{tree};

use std::alloc::{AllocError, Global};
use wf_look::{Look, word_of};
use wf_val::{Fields, Name, Text, Val, Vals};

/// What an action may ask for: objects by name, items with the nearest first, and values. What the data lack is empty.
#[derive(Drop)]
pub(crate) struct Table {
    pub(crate) parameters: Fields,
    pub(crate) variables: Fields,
    pub(crate) views: Fields,
    pub(crate) results: Fields,
    pub(crate) items: Vals,
    pub(crate) trigger: Val,
    /// The view of the action whose tracked properties are evaluated.
    pub(crate) own: Option<Val>,
    /// In ticks of 100 ns since 0001-01-01T00:00:00.
    pub(crate) moment: i64,
    /// The run's name, which is its seed and its place, too.
    pub(crate) run: Text,
    pub(crate) drawn: u64,
}

// The object under a name of the data, taken out of it.
fn object_in(alloc: Global, data: &mut Fields, name: &str) -> Result<Fields, AllocError> {
    match data.remove(&Text::of(alloc, name)?)? {
        Some(Val::Obj(fields)) => Ok(fields),
        _ => Ok(Fields::new(alloc)),
    }
}

fn list_in(alloc: Global, data: &mut Fields, name: &str) -> Result<Vals, AllocError> {
    match data.remove(&Text::of(alloc, name)?)? {
        Some(Val::List(items)) => Ok(items),
        _ => Ok(Vals::new(alloc)),
    }
}

fn number_in(alloc: Global, data: &mut Fields, name: &str) -> Result<i64, AllocError> {
    match data.remove(&Text::of(alloc, name)?)? {
        Some(Val::Int(number)) => Ok(number),
        _ => Ok(0),
    }
}

impl Table {
    /// The look that has nothing.
    pub(crate) fn empty(alloc: Global) -> Result<Table, AllocError> {
        let run = Text::of(alloc, "r")?;
        Ok(Table {
            parameters: Fields::new(alloc),
            variables: Fields::new(alloc),
            views: Fields::new(alloc),
            results: Fields::new(alloc),
            items: Vals::new(alloc),
            trigger: Val::Obj(Fields::new(alloc)),
            own: None,
            moment: 0,
            run,
            drawn: 0,
        })
    }

    /// Becomes the look that the data tell.
    pub(crate) fn take(&mut self, alloc: Global, data: &Fields) -> Result<(), AllocError> {
        let mut data = data.copy(alloc)?;
        self.take_named(alloc, &mut data)?;
        self.take_single(alloc, &mut data)
    }

    // Takes what is found by names.
    fn take_named(&mut self, alloc: Global, data: &mut Fields) -> Result<(), AllocError> {
        self.parameters = object_in(alloc, data, "parameters")?;
        self.variables = object_in(alloc, data, "variables")?;
        self.views = object_in(alloc, data, "views")?;
        self.results = object_in(alloc, data, "results")?;
        Ok(())
    }

    // Takes what is there once.
    fn take_single(&mut self, alloc: Global, data: &mut Fields) -> Result<(), AllocError> {
        self.items = list_in(alloc, data, "items")?;
        self.trigger = Val::Obj(object_in(alloc, data, "trigger")?);
        self.own = None;
        self.moment = number_in(alloc, data, "moment")?;
        self.drawn = 0;
        Ok(())
    }
}

// A value of its own.
fn copied(alloc: Global, found: Option<&Val>) -> Result<Option<Val>, AllocError>
    ensures { IfOk result (λ v. option_map tree v ≡ option_map (λ v. tree v.now) found.entry) }
{
    match found {
        Some(value) => Ok(Some(value.copy(alloc)?)),
        None => Ok(None),
    }
}

impl Look for Table {
    ghost use Rattle.wf_val.specs.Get.{value_of};

    ghost told = { λ s. record {
      parameter = λ k. value_of k s.parameters;
      variable = λ k. value_of k s.variables;
      trigger = tree s.trigger;
      view = λ k. value_of k s.views;
      result = λ k. value_of k s.results;
      items = s.items;
      item_of = λ k. None;
      index_of = λ k. None;
      own = option_map tree s.own;
      moment = s.moment;
      run_name = s.run;
      seed = s.run;
      place = s.run;
    } };

    ghost drawn = { λ s. s.drawn };

    ghost held = { λ s. [] };

    fn parameter(&self, name: &Text) -> Option<&Val> {
        self.parameters.get(name)
    }

    fn variable(&self, name: &Text) -> Option<&Val> {
        self.variables.get(name)
    }

    fn trigger(&self) -> &Val {
        &self.trigger
    }

    fn view(&self, alloc: Global, name: &Name) -> Result<Option<Val>, AllocError> {
        copied(alloc, self.views.get(name))
    }

    fn result(&self, alloc: Global, name: &Name) -> Result<Option<Val>, AllocError> {
        copied(alloc, self.results.get(name))
    }

    fn item(&self) -> Option<&Val> {
        self.items.at(0)
    }

    fn item_of(&self, _name: &Name) -> Option<&Val> {
        None
    }

    fn index_of(&self, _name: &Name) -> Option<u64> {
        None
    }

    fn own(&self) -> Option<&Val> {
        match &self.own {
            Some(view) => Some(view),
            None => None,
        }
    }

    fn moment(&self) -> i64 {
        self.moment
    }

    fn run_name(&self) -> &Text {
        &self.run
    }

    fn word(&mut self) -> [u8; 32] {
        let word = word_of(&self.run, &self.run, self.drawn);
        self.drawn = self.drawn.saturating_add(1);
        word
    }
}
