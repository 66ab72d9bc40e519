//! The further readings of a text, in the first of which something was refused: by the tokens too, with no tree between.
//! What has a flaw is read on all the same. Of what is open the least pointer of the flaw is kept: of a list so far, and
//! of an object for each of its names, since a later member of one name stands in its place.

ghost use Rattle.std.specs.Prelude.{◌≡◌, ◌≢◌, ◌+◌, ◌++◌, ◌∷◌, [], ◌<◌, ℕ, true};
ghost use Rattle.std.specs.Prelude.{length, map, option_map, string_bytes, Some, None, Ok, Err, IfOk, IfErr, OnOk};
ghost use Rattle.std.specs.BTreeMap.{insert_entry};
ghost use Rattle.std.specs.String.{string_cmp};
ghost use Rattle.json.specs.Json.{value, items, members};
ghost use Rattle.serde_json.specs.Data as json_tree;
ghost use Rattle.serde_json.specs.Read.{of_json, of_items, of_members, converted, number_of, read as read_text};
ghost use Rattle.wf_val.specs.Seen.{tree};
ghost use Rattle.wf_val.specs.ValueTree.{object, text as text_tree, members as member_trees};
ghost use Rattle.wf_json.specs.Found.{IsFound, found_member, pointer_after};
ghost use Rattle.wf_json.specs.Read.{greatest_nesting, has_flaw, least_flaw, read_json, value_of, whole};
ghost use Rattle.wf_json.specs.declared.fault.JsonFault.{JsonFault};
ghost use Rattle.wf_json.specs.declared.stop.Stop.{Stop};

use crate::fault::{Flaw, JsonFault};
use crate::pointer::{here, with_item, with_member};
use crate::stop::Stop;
use crate::whole::number_in;
use json::{Reader, Scratch, Token};
use std::alloc::{AllocError, Global};
use std::collections::BTreeMap;
use wf_val::{Fields, Text, Val, Vals};

pub(crate) const GREATEST_NESTING: u32 = 120;

// For so many lists and objects in one another the grammar has room.
const LEVELS: u32 = 127;

/// What a reading is for: the least pointer of a flaw, and the value too, where it is kept.
#[derive(Clone, Copy)]
pub(crate) struct Aim {
    pub(crate) flaw: Flaw,
    pub(crate) keep: bool,
}

/// The least pointer of a place that has the flaw, and the value, where it is kept. A place without the flaw costs no memory.
#[derive(Drop)]
pub(crate) struct Found {
    pub(crate) value: Val,
    pub(crate) pointer: Option<String>,
}

/// The least pointer of a place of the text that has the flaw.
pub(crate) fn least_flawed(
    alloc: Global,
    flaw: Flaw,
    text: &str,
) -> Result<Option<String>, JsonFault>
    ensures pointer { IfOk result (λ p. option_map (least_flaw flaw) (read_text text.now)
        ≡ Some (option_map string_bytes p)) }
    ensures fault { IfErr result
        (λ e. e ≢ JsonFault.Memory → read_json (read_text text.now) ≡ Err e) }
{
    let aim = Aim { flaw, keep: false };
    match found_in(alloc, aim, text) {
        Ok(found) => Ok(found.pointer),
        Err(Stop::Memory) => Err(JsonFault::Memory),
        Err(Stop::NotJson | Stop::Flawed) => Err(JsonFault::NotJson),
    }
}

/// The value of the text. It is asked for where no flaw is left: what a later member of its name replaces may have had one.
pub(crate) fn value_past_flaws(alloc: Global, text: &str) -> Result<Val, JsonFault>
    ensures value { IfOk result (λ v. option_map value_of (read_text text.now) ≡ Some (tree v)) }
    ensures fault { IfErr result
        (λ e. e ≢ JsonFault.Memory → read_json (read_text text.now) ≡ Err e) }
{
    let aim = Aim {
        flaw: Flaw::TooDeep,
        keep: true,
    };
    match found_in(alloc, aim, text) {
        Ok(found) => Ok(found.value),
        Err(Stop::Memory) => Err(JsonFault::Memory),
        Err(Stop::NotJson | Stop::Flawed) => Err(JsonFault::NotJson),
    }
}

// What is found in the text.
fn found_in(alloc: Global, aim: Aim, text: &str) -> Result<Found, Stop>
    ensures ok { IfOk result (λ f. (d : json_tree.Data) × (read_text text.now ≡ Some d)
        × IsFound aim greatest_nesting d f) }
    ensures refused { IfErr result (λ e. e ≢ Stop.Memory → read_text text.now ≡ None) }
{
    let mut scratch = Scratch::new(alloc);
    let mut reader = Reader::new(text, &mut scratch)?;
    let found = value_found(alloc, aim, &mut reader, LEVELS, GREATEST_NESTING)?;
    if reader.next().is_some() {
        return Err(Stop::NotJson);
    }
    Ok(found)
}

impl Flaw {
    // Whether a list or an object is refused where it stands.
    fn is_at_nesting(self, room: u32) -> bool
        ensures { result ≡ has_flaw self room (json_tree.array json_tree.no_items) }
    {
        match self {
            Flaw::NotWhole => false,
            Flaw::TooDeep => room == 0,
        }
    }

    // Whether a number is refused.
    fn is_at_number(self, number: Option<i64>) -> bool
        ensures { (room : ℕ) → (n : json_tree.Num) → whole n ≡ number
            → result ≡ has_flaw self room (json_tree.number n) }
    {
        match self {
            Flaw::NotWhole => number.is_none(),
            Flaw::TooDeep => false,
        }
    }
}

// The next value. The grammar has room for `levels` lists and objects in one another, and more than `room` of them are
// too deep.
#[cycle(found)]
fn value_found(
    alloc: Global,
    aim: Aim,
    reader: &mut Reader<'_>,
    levels: u32,
    room: u32,
) -> Result<Found, Stop>
    ensures ok { IfOk result (λ f. (d : json_tree.Data)
        × (converted of_json (value levels reader.old) ≡ Some (d, reader.new))
        × IsFound aim room d f) }
    ensures shorter { OnOk result (length reader.new < length reader.old) }
    ensures refused { IfErr result (λ e. e ≢ Stop.Memory
        → converted of_json (value levels reader.old) ≡ None) }
{
    let token = reader.next().ok_or(Stop::NotJson)?;
    match token {
        Token::Null => Ok(sound(Val::Null)),
        Token::Bool(b) => Ok(sound(Val::Bool(b))),
        Token::Number(text) => Ok(number_found(alloc, aim, text)?),
        Token::String(text) => Ok(sound(text_kept(alloc, aim.keep, text)?)),
        Token::BeginArray => {
            if levels == 0 {
                return Err(Stop::NotJson);
            }
            Ok(items_found(alloc, aim, reader, levels - 1, room)?)
        }
        Token::BeginObject => {
            if levels == 0 {
                return Err(Stop::NotJson);
            }
            Ok(members_found(alloc, aim, reader, levels - 1, room)?)
        }
        Token::EndObject | Token::EndArray | Token::Key(_) | Token::Bad => Err(Stop::NotJson),
    }
}

// The list of the items up to its end.
#[cycle(found)]
fn items_found(
    alloc: Global,
    aim: Aim,
    reader: &mut Reader<'_>,
    levels: u32,
    room: u32,
) -> Result<Found, Stop>
    ensures ok { IfOk result (λ f. (ds : json_tree.Items)
        × (converted of_items (items (value levels) (length reader.old) reader.old)
        ≡ Some (ds, reader.new))
        × IsFound aim room (json_tree.array ds) f) }
    ensures shorter { OnOk result (length reader.new < length reader.old) }
    ensures refused { IfErr result (λ e. e ≢ Stop.Memory
        → converted of_items (items (value levels) (length reader.old) reader.old) ≡ None) }
{
    let mut values = Vals::new(alloc);
    let mut place = 0;
    let mut best = here(alloc, aim.flaw.is_at_nesting(room));
    'items: while !reader.take_end_array() {
        let item = value_found(alloc, aim, reader, levels, room.saturating_sub(1))?;
        best = with_item(alloc, best, place, item.pointer)?;
        push_kept(aim.keep, &mut values, item.value)?;
        place = next_place(place)?;
    }
    let list = values.settled()?;
    Ok(Found {
        value: Val::List(list),
        pointer: best,
    })
}

// The object of the members up to its end. A text has them in any order, and the last of a name stands.
#[cycle(found)]
fn members_found(
    alloc: Global,
    aim: Aim,
    reader: &mut Reader<'_>,
    levels: u32,
    room: u32,
) -> Result<Found, Stop>
    ensures ok { IfOk result (λ f. (ms : json_tree.Members)
        × (converted (λ x. of_members x json_tree.no_members)
        (members (value levels) (length reader.old) reader.old) ≡ Some (ms, reader.new))
        × IsFound aim room (json_tree.object ms) f) }
    ensures shorter { OnOk result (length reader.new < length reader.old) }
    ensures refused { IfErr result (λ e. e ≢ Stop.Memory
        → converted (λ x. of_members x json_tree.no_members)
        (members (value levels) (length reader.old) reader.old) ≡ None) }
{
    let mut found = BTreeMap::new(alloc);
    'members: while let Some(name) = reader.next_key()? {
        let name = String::from_str(alloc, name)?;
        let member = value_found(alloc, aim, reader, levels, room.saturating_sub(1))?;
        put(&mut found, name, member)?;
    }
    let best = here(alloc, aim.flaw.is_at_nesting(room));
    Ok(object_found(alloc, aim.keep, best, found)?)
}

// A value that has no flaw.
fn sound(value: Val) -> Found
    ensures value { result.value ≡ value }
    ensures pointer { result.pointer ≡ None }
{
    Found {
        value,
        pointer: None,
    }
}

// A text, where it is kept.
fn text_kept(alloc: Global, keep: bool, text: &str) -> Result<Val, AllocError>
    ensures { IfOk result (λ v. keep ≡ true → tree v ≡ text_tree text.now) }
{
    if keep {
        Ok(Val::Text(Text::of(alloc, text)?))
    } else {
        Ok(Val::Null)
    }
}

// Puts an item behind the others, where they are kept.
fn push_kept(keep: bool, values: &mut Vals, item: Val) -> Result<(), AllocError>
    ensures { OnOk result (keep ≡ true → values.new ≡ values.old ++ tree item ∷ []) }
{
    if keep {
        values.push(item)?;
    }
    Ok(())
}

// The place after this one. No text is so long that there is none.
fn next_place(place: usize) -> Result<usize, AllocError>
    ensures { IfOk result (λ next. next ≡ place + 1) }
{
    place.checked_add(1).ok_or(AllocError)
}

// The number that a token writes.
fn number_found(alloc: Global, aim: Aim, text: &str) -> Result<Found, Stop>
    ensures ok { IfOk result (λ f. (n : json_tree.Num) × (number_of text.now ≡ Some n)
        × ((room : ℕ) → IsFound aim room (json_tree.number n) f)) }
    ensures refused { IfErr result (λ e. number_of text.now ≡ None) }
{
    match number_in(text) {
        Some(number) => Ok(Found {
            value: Val::Int(number.unwrap_or(0)),
            pointer: here(alloc, aim.flaw.is_at_number(number)),
        }),
        None => Err(Stop::NotJson),
    }
}

// Puts a member to others, in place of the one that has the name.
fn put(found: &mut BTreeMap<String, Found>, name: String, member: Found) -> Result<(), AllocError>
    ensures { OnOk result (found.new.entries
        ≡ insert_entry string_cmp found.old.entries name member) }
{
    let _earlier = found.insert(name, member)?;
    Ok(())
}

// The object of a map of its members, where it is kept, and the least of the best pointer so far and theirs.
fn object_found(
    alloc: Global,
    keep: bool,
    best: Option<String>,
    found: BTreeMap<String, Found>,
) -> Result<Found, AllocError>
    ensures value { IfOk result (λ f. keep ≡ true
        → tree f.value ≡ object (member_trees (map found_member found.entries))) }
    ensures pointer { IfOk result (λ f. option_map string_bytes f.pointer
        ≡ pointer_after (option_map string_bytes best) found.entries) }
{
    if keep {
        object_kept(alloc, best, found)
    } else {
        Ok(Found {
            value: Val::Null,
            pointer: least_among(alloc, best, found)?,
        })
    }
}

fn least_among(
    alloc: Global,
    best: Option<String>,
    found: BTreeMap<String, Found>,
) -> Result<Option<String>, AllocError>
    ensures { IfOk result (λ p. option_map string_bytes p
        ≡ pointer_after (option_map string_bytes best) found.entries) }
{
    let mut best = best;
    for (name, member) in found {
        best = with_member(alloc, best, name.as_str(), member.pointer)?;
    }
    Ok(best)
}

fn object_kept(
    alloc: Global,
    best: Option<String>,
    found: BTreeMap<String, Found>,
) -> Result<Found, AllocError>
    ensures value { IfOk result (λ f. tree f.value ≡ object (member_trees (map found_member found.entries))) }
    ensures pointer { IfOk result (λ f. option_map string_bytes f.pointer
        ≡ pointer_after (option_map string_bytes best) found.entries) }
{
    // that the names come in order is told by this call on the map alone
    let count = found.len();
    let mut fields = Fields::with_capacity(alloc, count)?;
    let mut best = best;
    for (name, member) in found {
        best = with_member(alloc, best, name.as_str(), member.pointer)?;
        fields.append(Text::from_string(name), member.value)?;
    }
    Ok(Found {
        value: Val::Obj(fields),
        pointer: best,
    })
}
