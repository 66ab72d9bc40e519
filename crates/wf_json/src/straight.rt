//! Values straight from the tokens of a JSON text, with no tree between. A flaw stops the reading,
//! since the least pointer of one is told only by what follows, and by further readings (`flaws`).

ghost use Rattle.std.specs.Prelude.{◌≡◌, ◌+◌, ◌<◌, ◌≤◌, length, map, Some, None, Ok, Err, IfOk, OnOk};
ghost use Rattle.std.specs.BTreeMap.{insert_entry};
ghost use Rattle.std.specs.String.{string_cmp};
ghost use Rattle.json.specs.Json.{value, items, members};
ghost use Rattle.serde_json.specs.Data.{no_members};
ghost use Rattle.serde_json.specs.Read.{of_json, of_items, of_members, converted, read as read_text};
ghost use Rattle.wf_val.specs.ValueTree.{depth, trees, trees_depth, members as member_trees, members_depth};
ghost use Rattle.wf_val.specs.Seen.{tree};
ghost use Rattle.wf_json.specs.Read.{read_json};
ghost use Rattle.wf_json.specs.Sent.{data_of, items_of, members_of, named};
ghost use Rattle.wf_json.specs.declared.stop.Stop.{Stop};

use crate::flaws::GREATEST_NESTING;
use crate::stop::Stop;
use crate::whole::whole_number;
use json::{Reader, Scratch, Token};
use std::alloc::{AllocError, Global};
use std::collections::BTreeMap;
use wf_val::{Fields, Text, Val, Vals};

/// The value that the text is the JSON text of.
pub(crate) fn read_straight(alloc: Global, text: &str) -> Result<Val, Stop>
    ensures value { IfOk result (λ v. read_json (read_text text.now) ≡ Ok (tree v)) }
    ensures not_json { result ≡ Err Stop.NotJson → read_text text.now ≡ None }
{
    let mut scratch = Scratch::new(alloc);
    let mut reader = Reader::new(text, &mut scratch)?;
    let value = value_in(alloc, &mut reader, GREATEST_NESTING)?;
    if reader.next().is_some() {
        return Err(Stop::NotJson);
    }
    value.always_well_formed();
    Ok(value)
}

// The next value, with `room` for so many lists and objects in one another. The grammar has room
// for seven more.
#[cycle(straight)]
fn value_in(alloc: Global, reader: &mut Reader<'_>, room: u32) -> Result<Val, Stop>
    ensures ok { IfOk result (λ v. converted of_json (value (room + 7) reader.old)
        ≡ Some (data_of (tree v), reader.new)) }
    ensures nests { IfOk result (λ v. depth (tree v) ≤ room) }
    ensures shorter { OnOk result (length reader.new < length reader.old) }
    ensures not_json { result ≡ Err Stop.NotJson
        → converted of_json (value (room + 7) reader.old) ≡ None }
{
    let token = reader.next().ok_or(Stop::NotJson)?;
    match token {
        Token::Null => Ok(Val::Null),
        Token::Bool(b) => Ok(Val::Bool(b)),
        Token::Number(text) => match whole_number(text) {
            Some(number) => Ok(Val::Int(number)),
            None => Err(Stop::Flawed),
        },
        Token::String(text) => Ok(Val::Text(Text::of(alloc, text)?)),
        Token::BeginArray => {
            if room == 0 {
                return Err(Stop::Flawed);
            }
            Ok(Val::List(items_in(alloc, reader, room - 1)?))
        }
        Token::BeginObject => {
            if room == 0 {
                return Err(Stop::Flawed);
            }
            Ok(Val::Obj(members_in(alloc, reader, room - 1)?))
        }
        Token::EndObject | Token::EndArray | Token::Key(_) | Token::Bad => Err(Stop::NotJson),
    }
}

// The items up to the end of their list.
#[cycle(straight)]
fn items_in(alloc: Global, reader: &mut Reader<'_>, room: u32) -> Result<Vals, Stop>
    ensures ok { IfOk result
        (λ vs. converted of_items (items (value (room + 7)) (length reader.old) reader.old)
        ≡ Some (items_of (trees vs), reader.new)) }
    ensures nests { IfOk result (λ vs. trees_depth (trees vs) ≤ room) }
    ensures shorter { OnOk result (length reader.new < length reader.old) }
    ensures not_json { result ≡ Err Stop.NotJson
        → converted of_items (items (value (room + 7)) (length reader.old) reader.old) ≡ None }
{
    let mut found = Vals::new(alloc);
    'items: while !reader.take_end_array() {
        let item = value_in(alloc, reader, room)?;
        found.push(item)?;
    }
    let list = found.settled()?;
    Ok(list)
}

// The members up to the end of their object. A text has them in any order, and the last of a name
// stands.
#[cycle(straight)]
fn members_in(alloc: Global, reader: &mut Reader<'_>, room: u32) -> Result<Fields, Stop>
    ensures ok { IfOk result (λ fs. converted (λ ms. of_members ms no_members)
        (members (value (room + 7)) (length reader.old) reader.old)
        ≡ Some (members_of (member_trees fs), reader.new)) }
    ensures nests { IfOk result (λ fs. members_depth (member_trees fs) ≤ room) }
    ensures shorter { OnOk result (length reader.new < length reader.old) }
    ensures not_json { result ≡ Err Stop.NotJson
        → converted (λ ms. of_members ms no_members)
        (members (value (room + 7)) (length reader.old) reader.old) ≡ None }
{
    let mut found = BTreeMap::new(alloc);
    'members: while let Some(name) = reader.next_key()? {
        let name = String::from_str(alloc, name)?;
        let member = value_in(alloc, reader, room)?;
        put(&mut found, name, member)?;
    }
    Ok(in_order(alloc, found)?)
}

// Puts a member to others, in place of the one that has the name.
fn put(found: &mut BTreeMap<String, Val>, name: String, value: Val) -> Result<(), AllocError>
    ensures { OnOk result (found.new.entries
        ≡ insert_entry string_cmp found.old.entries name value) }
{
    let _earlier = found.insert(name, value)?;
    Ok(())
}

// The members of an object from a map of them.
fn in_order(alloc: Global, found: BTreeMap<String, Val>) -> Result<Fields, AllocError>
    ensures { IfOk result (λ fs. fs ≡ map named found.entries) }
{
    // that the names come in order is told by this call on the map alone
    let count = found.len();
    let mut fields = Fields::with_capacity(alloc, count)?;
    for (name, value) in found {
        fields.append(Text::from_string(name), value)?;
    }
    fields.settled()
}
