//! Which rule a definition breaks first, and where.
ghost use Rattle.std.specs.Prelude.{◌≡◌, ◌++◌, ℕ, List, [], Some, None, IfOk, codes, cond, map, option_map, string_bytes};
ghost use Rattle.wf_varorder.specs.DefSeen.{output_tree, param_tree, trigger_tree};
ghost use Rattle.wf_first.specs.First.{first_broken};
ghost use Rattle.wf_json.specs.Pointer.{least, lesser, member_step};
ghost use Rattle.wf_varorder.specs.OrderSeen.{order_tree};
ghost use Rattle.wf_varorder.specs.ReadSeen.{def_tree};
ghost use Rattle.wf_rules.specs.Broken.{first_pointer, offences, pairs_told, parameter_pointer, rules_in_order, told, told_in};
ghost use Rattle.wf_varorder.specs.Pairs.{pairs_among};
ghost use Rattle.wf_varorder.specs.KnownSeen.{whole_seen};
ghost use Rattle.wf_breaks.specs.Rules.{action_breaks, output_breaks, parameter_breaks, trigger_breaks};
ghost use Rattle.wf_varorder.specs.StandingSeen.{standing_tree};
ghost use Rattle.wf_varorder.specs.Standing.{pointer_at, standings_of};
ghost use Rattle.wf_varorder.specs.Whole.{order_in, whole_of};
ghost use Rattle.wf_val.specs.Cut.{cut_u32};

use std::alloc::{AllocError, Global};
use std::cmp::Ordering;
use wf_breaks::{Rule, action_breaks, output_breaks, parameter_breaks, trigger_breaks};
use wf_json::pointer::{lesser, lesser_of, step_to};
use wf_val::{Fields, Name, Text};
use wf_varorder::{
    Def, Known, Order, Output, PairRule, Param, Standing, Trigger, least_pair, refs, standings_of,
};

// The lesser of the pointer so far, if there is one, and another, where that is broken.
fn with_pointer<'a>(best: Option<&'a Text>, broken: bool, pointer: &'a Text) -> Option<&'a Text>
    ensures { option_map (λ p. p.now) result ≡ lesser (option_map (λ p. p.now) best.entry) (cond broken (Some pointer.now) None) }
{
    if !broken {
        return best;
    }
    match best {
        None => Some(pointer),
        Some(best) => match best.order(pointer) {
            Ordering::Greater => Some(pointer),
            _ => Some(best),
        },
    }
}

// The pointer of a member of a section, from the definition on.
fn member_of(alloc: Global, section: &str, name: &Name) -> Result<String, AllocError>
    ensures { IfOk result (λ p. string_bytes p ≡ section.now ++ member_step name.now) }
{
    let mut pointer = String::from_str(alloc, section)?;
    let step = step_to(alloc, name.as_str())?;
    pointer.push_str(step.as_str())?;
    Ok(pointer)
}

// The lesser of the pointer so far and that of a member, where it is broken.
fn with_member(
    alloc: Global,
    best: Option<String>,
    broken: bool,
    section: &str,
    name: &Name,
) -> Result<Option<String>, AllocError>
    ensures { IfOk result (λ p. option_map string_bytes p
        ≡ lesser (option_map string_bytes best) (cond broken (Some (section.now ++ member_step name.now)) None)) }
{
    if !broken {
        return Ok(best);
    }
    let pointer = member_of(alloc, section, name)?;
    Ok(Some(lesser_of(best, pointer)))
}

fn least_action<'a>(
    known: &Known<'_, '_>,
    rule: Rule,
    standings: &[Standing<'a>],
) -> Option<&'a Text>
    ensures { option_map (λ p. p.now) result
        ≡ least (told (action_breaks (whole_seen known.now) rule) pointer_at (map standing_tree standings.now)) }
{
    let mut best = None;
    for standing in standings {
        best = with_pointer(
            best,
            action_breaks(known, rule, standing),
            &standing.action.pointer,
        );
    }
    best
}

// Where the least pair is told that breaks a rule on two actions.
fn first_told<'a>(
    known: &Known<'_, '_>,
    rule: PairRule,
    standings: &[Standing<'a>],
) -> Option<&'a Text>
    ensures { option_map (λ p. p.now) result ≡ least (map first_pointer
        (pairs_among (whole_seen known.now) rule (map standing_tree standings.now) (map standing_tree standings.now))) }
{
    match least_pair(known, standings, rule) {
        Some(pair) => Some(&pair.first.action.pointer),
        None => None,
    }
}

fn least_of_pairs<'a>(
    known: &Known<'_, '_>,
    rule: Rule,
    standings: &[Standing<'a>],
) -> Option<&'a Text>
    ensures { option_map (λ p. p.now) result ≡ least (pairs_told (whole_seen known.now) (map standing_tree standings.now) rule) }
{
    match rule {
        Rule::Accesses => first_told(known, PairRule::Variables, standings),
        Rule::Terminates => first_told(known, PairRule::Terminates, standings),
        Rule::Responses => first_told(known, PairRule::Responses, standings),
        _ => None,
    }
}

fn copied(alloc: Global, pointer: Option<&Text>) -> Result<Option<String>, AllocError>
    ensures { IfOk result (λ p. option_map string_bytes p ≡ option_map (λ q. q.now) pointer.entry) }
{
    match pointer {
        None => Ok(None),
        Some(pointer) => Ok(Some(String::from_str(alloc, pointer.as_str())?)),
    }
}

// A place as a site has it.
fn cut(place: usize) -> u32
    ensures { result ≡ cut_u32 place }
{
    (place as u64).min(u32::MAX as u64) as u32
}

fn least_output(
    alloc: Global,
    known: &Known<'_, '_>,
    rule: Rule,
    outputs: &[Output],
) -> Result<Option<String>, AllocError>
    ensures { IfOk result (λ p. option_map string_bytes p
        ≡ least (told_in (codes "/outputs")
        (output_breaks (whole_seen known.now) rule) 0 (map (λ o. o.name) (map output_tree outputs.now)))) }
{
    let mut best = None;
    for (place, output) in outputs.iter().enumerate() {
        let broken = output_breaks(known, rule, cut(place));
        best = with_member(alloc, best, broken, "/outputs", &output.name)?;
    }
    Ok(best)
}

fn least_trigger(
    alloc: Global,
    known: &Known<'_, '_>,
    rule: Rule,
    triggers: &[Trigger],
) -> Result<Option<String>, AllocError>
    ensures { IfOk result (λ p. option_map string_bytes p
        ≡ least (told_in (codes "/triggers")
        (trigger_breaks (whole_seen known.now) rule) 0 (map (λ t. t.name) (map trigger_tree triggers.now)))) }
{
    let mut best = None;
    for (place, trigger) in triggers.iter().enumerate() {
        let broken = trigger_breaks(known, rule, cut(place));
        best = with_member(alloc, best, broken, "/triggers", &trigger.name)?;
    }
    Ok(best)
}

fn least_parameter(
    alloc: Global,
    given: &Fields,
    rule: Rule,
    params: &[Param],
) -> Result<Option<String>, AllocError>
    ensures { IfOk result (λ p. option_map string_bytes p
        ≡ least (told (parameter_breaks given.now rule) parameter_pointer (map param_tree params.now))) }
{
    let mut best = None;
    for param in params {
        let broken = parameter_breaks(given, rule, param);
        best = with_member(alloc, best, broken, "/parameters", &param.name)?;
    }
    Ok(best)
}

const RULES: [Rule; 13] = [
    Rule::References,
    Rule::Parameters,
    Rule::Variables,
    Rule::Initialised,
    Rule::Accesses,
    Rule::Items,
    Rule::Terminates,
    Rule::Responses,
    Rule::Ends,
    Rule::LoopsLeft,
    Rule::Results,
    Rule::Tracked,
    Rule::Triggers,
];

// The least pointer of what breaks the rule, where these are the definition's actions and what is known of it.
fn least_offence(
    alloc: Global,
    def: &Def,
    standings: &[Standing<'_>],
    known: &Known<'_, '_>,
    rule: Rule,
) -> Result<Option<String>, AllocError>
    requires standings { map standing_tree standings.now ≡ standings_of (def_tree def.now).top }
    requires known { whole_seen known.now ≡ whole_of (def_tree def.now) }
    ensures { IfOk result (λ p. option_map string_bytes p ≡ least (offences (def_tree def.now) rule)) }
{
    let action = copied(alloc, least_action(known, rule, standings))?;
    let output = least_output(alloc, known, rule, def.outputs.as_slice())?;
    let parameter = least_parameter(alloc, &def.given, rule, def.parameters.as_slice())?;
    let trigger = least_trigger(alloc, known, rule, def.triggers.as_slice())?;
    let pair = copied(alloc, least_of_pairs(known, rule, standings))?;
    Ok(lesser(
        action,
        lesser(output, lesser(parameter, lesser(trigger, pair))),
    ))
}

fn first_among(
    alloc: Global,
    def: &Def,
    standings: &[Standing<'_>],
    known: &Known<'_, '_>,
) -> Result<Option<(Rule, Text)>, AllocError>
    requires standings { map standing_tree standings.now ≡ standings_of (def_tree def.now).top }
    requires known { whole_seen known.now ≡ whole_of (def_tree def.now) }
    ensures { IfOk result (λ fault. fault ≡ first_broken (offences (def_tree def.now)) rules_in_order) }
{
    for rule in RULES {
        if let Some(pointer) = least_offence(alloc, def, standings, known, rule)? {
            return Ok(Some((rule, Text::from_string(pointer))));
        }
    }
    Ok(None)
}

/// The first rule that a definition breaks, with the least pointer, by bytes, of what breaks it, where this is the definition's order.
pub(crate) fn first_broken(
    alloc: Global,
    def: &Def,
    order: &Order,
) -> Result<Option<(Rule, Text)>, AllocError>
    requires { order_tree order.now ≡ order_in (def_tree def.now) }
    ensures { IfOk result (λ fault. fault ≡ first_broken (offences (def_tree def.now)) rules_in_order) }
{
    let standings = standings_of(alloc, &def.top)?;
    let uses = refs(alloc, def)?;
    let known = Known::of(alloc, def, &standings, order, &uses)?;
    first_among(alloc, def, &standings, &known)
}
