//! Reads the rules in front of a tape's records.
ghost use Rattle.std.specs.Prelude.{◌≡◌, ◌++◌, ℕ, List, length};
ghost use Rattle.circuit_model.specs.Rules.{Rules};
ghost use Rattle.tape.specs.TapeRules.{tape_rules, rules_and, rules_ahead, said_rules, rules_spelling, AreRules, SaysRules, RulesFrontIs, RestIsWithin};

use crate::field::field;
use crate::rules::{LEAST_WINDOW, RulesFront, STANDARD_WINDOW, TapeRules};

/// Reads the rules at the front of a tape: whatever spells rules is read as them, and what is read
/// as rules spells them, or says none and has the standard's.
#[tactic(auto, using(crate::proofs::RuleSpellings::spelled_is_rules))]
pub fn read_rules(tape: &[u8]) -> RulesFront<'_>
    ensures front { RulesFrontIs result (rules_ahead tape.now) }
    ensures read { (window least : ℕ) (rest : List ℕ) → AreRules window least → tape.now ≡ rules_spelling window least ++ rest
        → RulesFrontIs result (rules_and (tape_rules window least) rest) }
    ensures spelled { (rules : Rules) (rest : List ℕ) → RulesFrontIs result (rules_and rules rest)
        → SaysRules tape.now rules rest }
    ensures within { RestIsWithin result (length tape.now) }
{
    rules_front(tape)
}

/// The rules at the front of a tape, by its first byte.
#[tactic(auto, unfolding(crate::specs::TapeRules::rules_ahead))]
fn rules_front(tape: &[u8]) -> RulesFront<'_>
    ensures front { RulesFrontIs result (rules_ahead tape.now) }
    ensures within { RestIsWithin result (length tape.now) }
{
    match tape.split_first() {
        Some((0x10, fields)) => said_rules(fields),
        _ => RulesFront::Whole(TapeRules::standard(), tape),
    }
}

/// The rules that these fields of a record of kind 10 say.
#[tactic(auto, unfolding(crate::specs::TapeRules::said_rules))]
fn said_rules(fields: &[u8]) -> RulesFront<'_>
    ensures front { RulesFrontIs result (said_rules fields.now) }
    ensures within { RestIsWithin result (length fields.now) }
{
    if fields.len() < 4 {
        return RulesFront::Cut;
    }
    let window = u32::from(u16::from_be_bytes(field(fields, 0)));
    let least = fields[2];
    let in_range = LEAST_WINDOW <= window && window <= STANDARD_WINDOW && least <= 1;
    if !in_range || fields[3] != 0 {
        return RulesFront::Bad;
    }
    RulesFront::Whole(TapeRules { window, least }, &fields[4..])
}
