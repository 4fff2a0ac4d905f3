// Object texts and array texts, read whole (RFC 8259, section 2).
ghost use Rattle.std.specs.Prelude.{◌≡◌, ◌∷◌, ◌++◌, ℕ, List, [], MatchOption, MatchResult, IfErr, IfOk, OnOk};
ghost use Rattle.std.specs.List.{AllByRecursion};
ghost use Rattle.fk_json.specs.Json.{Faults, IsArrayText, IsObjectText, most_levels};
ghost use Rattle.fk_json.specs.Left.{ended};
ghost use Rattle.fk_json.specs.Members.{IsElementIn, IsMemberIn, inner_levels};
ghost use Rattle.fk_json.specs.Remainder.{Adds, HasName, IsKnown, pending_of};
ghost use Rattle.fk_json.specs.declared.fault.JsonFault.TheVariants.{NoMemory};
ghost use Rattle.fk_json.specs.declared.member.Member as declared_member;
ghost use Rattle.fk_json.specs.declared.mode.Bracket.TheVariants.{Array, Object};
ghost use Rattle.fk_json.specs.declared.span.Span as declared_span;

use crate::cursor::{Next, first_cursor, next_found};
use crate::mode::Bracket;
use crate::standing::{Found, Places};
use crate::{JsonFault, Member, Members, Span, Spans, Text, string_value};
use std::alloc::{AllocError, Global};

/// The members of a text that is one JSON object with white space around it, in order, with their
/// names decoded. At most 127 levels of brackets are read.
pub fn scan_object(alloc: Global, text: &[u8]) -> Result<Members, JsonFault>
    ensures ok { IfOk result (λ members. IsObjectText most_levels text.now members) }
    ensures placed { IfOk result (λ members. AllByRecursion (IsMemberIn inner_levels text.now) members) }
    ensures fault { IfErr result (λ fault. Faults IsObjectText text.now fault) }
    // Each such text of at most 127 levels is read, where there is memory, and has no other members.
    ensures whole { (members : List declared_member.Member) → IsObjectText most_levels text.now members
        → MatchResult result (λ found. found ≡ members) (λ fault. fault ≡ NoMemory) }
{
    let mut members = Members::new(alloc);
    let mut cursor = first_cursor();
    'items: loop {
        match next_found(Bracket::Object, text, cursor) {
            Ok(Next::Found(found, behind)) => {
                push_member(alloc, text, &mut members, found)?;
                cursor = behind;
            }
            Ok(Next::End) => return Ok(members),
            Err(fault) => return Err(fault),
        }
    }
}

/// The elements of a text that is one JSON array with white space around it, in order. At most 127
/// levels of brackets are read.
pub fn scan_array(alloc: Global, text: &[u8]) -> Result<Spans, JsonFault>
    ensures ok { IfOk result (λ elements. IsArrayText most_levels text.now elements) }
    ensures placed { IfOk result (λ elements. AllByRecursion (IsElementIn inner_levels text.now) elements) }
    ensures fault { IfErr result (λ fault. Faults IsArrayText text.now fault) }
    // Each such text of at most 127 levels is read, where there is memory, and has no other elements.
    ensures whole { (elements : List declared_span.Span) → IsArrayText most_levels text.now elements
        → MatchResult result (λ found. found ≡ elements) (λ fault. fault ≡ NoMemory) }
{
    let mut elements = Spans::new(alloc);
    let mut cursor = first_cursor();
    'items: loop {
        match next_found(Bracket::Array, text, cursor) {
            Ok(Next::Found(found, behind)) => {
                elements.push(Span {
                    from: found.places.from,
                    to: found.to,
                })?;
                cursor = behind;
            }
            Ok(Next::End) => return Ok(elements),
            Err(fault) => return Err(fault),
        }
    }
}

// Adds the member that was found.
fn push_member(
    alloc: Global,
    text: &[u8],
    members: &mut Members,
    found: Found,
) -> Result<(), JsonFault>
    requires { (name : List ℕ) × IsKnown text.now found.places name }
    ensures ok { OnOk result ((name : List ℕ) × IsKnown text.now found.places name
        × (members.new ≡ members.old ++ ended Object (pending_of name found.places) found.to ∷ [])) }
    ensures err { IfErr result (λ fault. fault ≡ NoMemory) }
{
    let places = found.places;
    if let Some(name) = name_at(alloc, text, places)? {
        members.push(Member {
            name,
            name_from: places.name_from,
            name_to: places.name_to,
            from: places.from,
            to: found.to,
        })?;
    }
    Ok(())
}

// The decoded name at its places.
fn name_at(alloc: Global, text: &[u8], places: Places) -> Result<Option<Text>, AllocError>
    requires { (name : List ℕ) × IsKnown text.now places name }
    ensures { IfOk result (λ found. MatchOption found ⊥ (λ name. IsKnown text.now places name)) }
{
    string_value(alloc, &text[places.name_from..places.name_to])
}
