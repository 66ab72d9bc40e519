//! The runs that start.
ghost use Rattle.std.specs.Prelude.{◌≡◌, ◌<◌, IfOk, Some, length, slice_get};
ghost use Rattle.wf_trigger.specs.Starts.{numbered, start_of_item, start_whole, trigger_value, with_body};
ghost use Rattle.wf_trigger.specs.StartsSeen.{shared_of, start_tree, starts_seen};
ghost use Rattle.wf_val.specs.Seen.{tree};

use itoa::Buffer;
use std::alloc::{AllocError, Global};
use wf_val::{Fields, Name, Text, Val, Vals};

/// What a run starts with.
#[derive(Drop)]
pub struct Start {
    pub run: Name,
    pub seed: Text,
    /// An object of the trigger's name, null where there is none, and its outputs.
    pub trigger: Val,
    pub parameters: Fields,
}

/// The runs that start. What they share is kept once; a split keeps its items, and the trigger's outputs without the
/// member `body`, which the item of each run takes the place of.
#[derive(Drop)]
pub struct Starts {
    pub(crate) run: Name,
    pub(crate) seed: Text,
    pub(crate) name: Val,
    pub(crate) outputs: Val,
    pub(crate) parameters: Fields,
    pub(crate) items: Option<Vals>,
    pub(crate) holds: bool,
}

impl Starts {
    /// How many runs start.
    #[tactic(auto, using(crate::proofs::StartLemmas::length_starts))]
    pub fn len(&self) -> u64
        ensures { result ≡ length (starts_seen self.now) }
    {
        match &self.items {
            _ if !self.holds => 0,
            None => 1,
            Some(items) => items.len(),
        }
    }

    /// The start of run k, counted from 0.
    pub fn start(&self, alloc: Global, k: u64) -> Result<Start, AllocError>
        requires { k < length (starts_seen self.now) }
        ensures { IfOk result (λ s. slice_get (starts_seen self.now) k ≡ Some (start_tree s)) }
    {
        match &self.items {
            None => {
                let start = self.whole(alloc)?;
                Ok(start)
            }
            Some(items) => match items.at(k) {
                Some(item) => {
                    let start = self.of_item(alloc, k, item)?;
                    Ok(start)
                }
                None => unreachable!(),
            },
        }
    }

    // The start of the one run where there is no split.
    fn whole(&self, alloc: Global) -> Result<Start, AllocError>
        ensures { IfOk result (λ s. start_tree s ≡ start_whole (shared_of self.now)) }
    {
        Ok(Start {
            run: self.run.copy(alloc)?,
            seed: self.seed.copy(alloc)?,
            trigger: trigger_value(alloc, self.name.copy(alloc)?, self.outputs.copy(alloc)?)?,
            parameters: self.parameters.copy(alloc)?,
        })
    }

    // The start of the run of an item.
    fn of_item(&self, alloc: Global, k: u64, item: &Val) -> Result<Start, AllocError>
        ensures { IfOk result (λ s. start_tree s ≡ start_of_item (shared_of self.now) k (tree item.now)) }
    {
        let outputs = with_body(alloc, &self.outputs, item)?;
        Ok(Start {
            run: numbered(alloc, self.run.as_str(), k)?,
            seed: numbered(alloc, self.seed.as_str(), k)?,
            trigger: trigger_value(alloc, self.name.copy(alloc)?, outputs)?,
            parameters: self.parameters.copy(alloc)?,
        })
    }
}

/// What a trigger is to expressions and in a record: its name and its outputs.
pub(crate) fn trigger_value(alloc: Global, name: Val, outputs: Val) -> Result<Val, AllocError>
    ensures { IfOk result (λ v. tree v ≡ trigger_value (tree name) (tree outputs)) }
{
    let mut fields = Fields::with_capacity(alloc, 2)?;
    fields.append(Text::of(alloc, "name")?, name)?;
    fields.append(Text::of(alloc, "outputs")?, outputs)?;
    Val::Obj(fields).shared(alloc)
}

#[tactic(auto, using(wf_val::proofs::ValueTreeLemmas::listed))]
fn with_body(alloc: Global, outputs: &Val, item: &Val) -> Result<Val, AllocError>
    ensures { IfOk result (λ v. tree v ≡ with_body (tree outputs.now) (tree item.now)) }
{
    let mut fields = match outputs {
        Val::Obj(fields) => fields.copy(alloc)?,
        _ => Fields::new(alloc),
    };
    fields.put(Text::of(alloc, "body")?, item.copy(alloc)?)?;
    Ok(Val::Obj(fields))
}

// A text with a number, which has twenty digits at most.
fn numbered(alloc: Global, text: &str, k: u64) -> Result<Text, AllocError>
    ensures { IfOk result (λ t. t ≡ numbered text.now k) }
{
    let mut buffer = Buffer::new();
    let mut numbered = String::with_capacity(alloc, text.len().saturating_add(21))?;
    numbered.push_str(text)?;
    numbered.push('-')?;
    numbered.push_str(buffer.format(k))?;
    Ok(Text::from_string(numbered))
}
