//! Which of several rules is broken first, and where.
//!
//! A rule on a definition is the list of the pointers (RFC 6901) at which the definition breaks it. Of some rules in their order the
//! first that is broken is told, with the least of its pointers in the order of bytes. `specs/First` says so once, as a function of any
//! rules and any such lists, and in other words as the facts that make a rule and a pointer this answer.
//!
//! It has no code, and knows no rule: which they are, and what breaks them, is for the crates of rules to say, whose bodies try theirs
//! one after the other.
#![tactic(auto)]

ghost use Rattle.std.specs.Prelude.{◌≡◌, ◌↔◌, ℕ, List, Some, None};
ghost use Rattle.wf_first.specs.First.{first_broken, Hold, IsFirstBroken};

/// What is told of some rules is exactly the first that is broken with the least pointer that breaks it: the rules before it hold, and of
/// its pointers none is less. And none is told exactly where all of them hold.
pub fn the_first_broken<Rule>()
    ensures some { (offences : Rule → List (List ℕ)) (rules : List Rule) (rule : Rule) (pointer : List ℕ)
        → (first_broken offences rules ≡ Some (rule, pointer)) ↔ IsFirstBroken offences rules rule pointer }
    ensures none { (offences : Rule → List (List ℕ)) (rules : List Rule)
        → (first_broken offences rules ≡ None) ↔ Hold offences rules }
{}
