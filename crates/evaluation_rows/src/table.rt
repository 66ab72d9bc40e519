//! A look made from data.
ghost use Rattle.std.specs.Prelude.{◌≡◌, [], IfOk, option_map};
ghost use Rattle.wf_val.specs.Seen.{tree};
ghost use Rattle.evaluation_rows.specs.Table.{as_index};

use std::alloc::{AllocError, Global};
use wf_look::{Look, word_of};
use wf_val::{Fields, Name, Text, Val, Vals};

/// What a look tells, in objects by name and in values. An object or a list that the data lacks is empty.
#[derive(Drop)]
pub(crate) struct Table {
    pub(crate) parameters: Fields,
    pub(crate) variables: Fields,
    pub(crate) trigger: Val,
    pub(crate) views: Fields,
    pub(crate) results: Fields,
    pub(crate) items: Vals,
    pub(crate) named: Fields,
    pub(crate) indexes: Fields,
    pub(crate) own: Option<Val>,
    pub(crate) moment: i64,
    pub(crate) run: Text,
    pub(crate) seed: Text,
    pub(crate) place: Text,
    pub(crate) drawn: u64,
}

// The object under a name of the data, taken out of it.
fn object_in(alloc: Global, data: &mut Fields, name: &str) -> Result<Fields, AllocError> {
    match data.remove(&Text::of(alloc, name)?)? {
        Some(Val::Obj(fields)) => Ok(fields),
        _ => Ok(Fields::new(alloc)),
    }
}

fn list_in(alloc: Global, data: &mut Fields, name: &str) -> Result<Vals, AllocError> {
    match data.remove(&Text::of(alloc, name)?)? {
        Some(Val::List(items)) => Ok(items),
        _ => Ok(Vals::new(alloc)),
    }
}

fn text_in(alloc: Global, data: &mut Fields, name: &str) -> Result<Text, AllocError> {
    match data.remove(&Text::of(alloc, name)?)? {
        Some(Val::Text(text)) => Ok(text),
        _ => Text::of(alloc, ""),
    }
}

fn number_in(alloc: Global, data: &mut Fields, name: &str) -> Result<i64, AllocError> {
    match data.remove(&Text::of(alloc, name)?)? {
        Some(Val::Int(number)) => Ok(number),
        _ => Ok(0),
    }
}

// The trigger of a run that was started by none.
fn no_trigger(alloc: Global) -> Result<Val, AllocError> {
    let mut members = Fields::new(alloc);
    members.put(Text::of(alloc, "name")?, Val::Null)?;
    members.put(Text::of(alloc, "outputs")?, Val::Null)?;
    Ok(Val::Obj(members))
}

impl Table {
    /// The look that has nothing.
    pub(crate) fn empty(alloc: Global) -> Table {
        Table {
            parameters: Fields::new(alloc),
            variables: Fields::new(alloc),
            trigger: Val::Null,
            views: Fields::new(alloc),
            results: Fields::new(alloc),
            items: Vals::new(alloc),
            named: Fields::new(alloc),
            indexes: Fields::new(alloc),
            own: None,
            moment: 0,
            run: Text::from_string(String::new(alloc)),
            seed: Text::from_string(String::new(alloc)),
            place: Text::from_string(String::new(alloc)),
            drawn: 0,
        }
    }

    // Takes what is found by names.
    fn take_named(&mut self, alloc: Global, data: &mut Fields) -> Result<(), AllocError> {
        self.parameters = object_in(alloc, data, "parameters")?;
        self.variables = object_in(alloc, data, "variables")?;
        self.views = object_in(alloc, data, "views")?;
        self.results = object_in(alloc, data, "results")?;
        self.named = object_in(alloc, data, "named")?;
        self.indexes = object_in(alloc, data, "indexes")?;
        Ok(())
    }

    // Takes what is there once.
    fn take_single(&mut self, alloc: Global, data: &mut Fields) -> Result<(), AllocError> {
        self.items = list_in(alloc, data, "items")?;
        self.own = data.remove(&Text::of(alloc, "own")?)?;
        self.moment = number_in(alloc, data, "moment")?;
        self.run = text_in(alloc, data, "run")?;
        self.seed = text_in(alloc, data, "seed")?;
        self.place = text_in(alloc, data, "place")?;
        Ok(())
    }

    // Takes the trigger's value.
    fn take_trigger(&mut self, alloc: Global, data: &mut Fields) -> Result<(), AllocError> {
        let name = Text::of(alloc, "trigger")?;
        match data.remove(&name)? {
            Some(trigger) => self.trigger = trigger,
            None => self.trigger = no_trigger(alloc)?,
        }
        Ok(())
    }

    /// Becomes the look that the data tells; `own` is there only where the data has it.
    pub(crate) fn take(&mut self, alloc: Global, data: &Fields) -> Result<(), AllocError> {
        let mut data = data.copy(alloc)?;
        self.take_named(alloc, &mut data)?;
        self.take_single(alloc, &mut data)?;
        self.take_trigger(alloc, &mut data)
    }
}

// A value of its own.
fn copied(alloc: Global, found: Option<&Val>) -> Result<Option<Val>, AllocError>
    ensures { IfOk result (λ v. option_map tree v ≡ option_map (λ v. tree v.now) found.entry) }
{
    match found {
        Some(value) => Ok(Some(value.copy(alloc)?)),
        None => Ok(None),
    }
}

fn as_index(found: Option<&Val>) -> Option<u64>
    ensures { result ≡ as_index (option_map (λ v. tree v.now) found.entry) }
{
    match found {
        Some(Val::Int(index)) if *index >= 0 => Some(*index as u64),
        _ => None,
    }
}

impl Look for Table {
    ghost use Rattle.wf_val.specs.Get.{value_of};

    ghost told = { λ s. record {
      parameter = λ k. value_of k s.parameters;
      variable = λ k. value_of k s.variables;
      trigger = tree s.trigger;
      view = λ k. value_of k s.views;
      result = λ k. value_of k s.results;
      items = s.items;
      item_of = λ k. value_of k s.named;
      index_of = λ k. as_index (value_of k s.indexes);
      own = option_map tree s.own;
      moment = s.moment;
      run_name = s.run;
      seed = s.seed;
      place = s.place;
    } };

    ghost drawn = { λ s. s.drawn };

    ghost held = { λ s. [] };

    fn parameter(&self, name: &Text) -> Option<&Val> {
        self.parameters.get(name)
    }

    fn variable(&self, name: &Text) -> Option<&Val> {
        self.variables.get(name)
    }

    fn trigger(&self) -> &Val {
        &self.trigger
    }

    fn view(&self, alloc: Global, name: &Name) -> Result<Option<Val>, AllocError> {
        copied(alloc, self.views.get(name))
    }

    fn result(&self, alloc: Global, name: &Name) -> Result<Option<Val>, AllocError> {
        copied(alloc, self.results.get(name))
    }

    fn item(&self) -> Option<&Val> {
        self.items.at(0)
    }

    fn item_of(&self, name: &Name) -> Option<&Val> {
        self.named.get(name)
    }

    fn index_of(&self, name: &Name) -> Option<u64> {
        as_index(self.indexes.get(name))
    }

    fn own(&self) -> Option<&Val> {
        match &self.own {
            Some(view) => Some(view),
            None => None,
        }
    }

    fn moment(&self) -> i64 {
        self.moment
    }

    fn run_name(&self) -> &Text {
        &self.run
    }

    fn word(&mut self) -> [u8; 32] {
        let word = word_of(&self.seed, &self.place, self.drawn);
        self.drawn = self.drawn.saturating_add(1);
        word
    }
}
