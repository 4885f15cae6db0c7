//! What unmunge prints.

ghost use Rattle.std.specs.Prelude.{◌≡◌, ◌++◌, IfOk, OnOk, Some, codes};
ghost use Rattle.std.specs.Fmt.{decimal};
ghost use Rattle.munge_tools.specs.Printed.{
  address_text,
  content_text,
  field,
  origin_text,
  owner_text,
  payload_text,
  place_text,
  printed_text,
  restriction_text,
  restrictions_text,
  times_text,
  verdict_text,
};

use itoa::Buffer;
use munge_types::NoMemory;
use std::alloc::Global;
use wire_msg::{Content, DecodeSaid};

/// The place of a reply that has none.
const NO_PLACE: u64 = 18446744073709551615;

/// The restriction that is none.
const ANY: u32 = 4294967295;

/// What unmunge prints of a decode reply: a line each for the status, for the first rule that was
/// broken, with 0 for none, and for the place; and, where the content is shown, ten lines of it, an
/// empty line and the payload as it is. The place 18446744073709551615 is printed as `none`, and
/// the restriction 4294967295 as `any`.
pub fn printed(alloc: Global, said: &DecodeSaid) -> Result<Vec<u8>, NoMemory>
    ensures { IfOk result (λ text. text.items ≡ printed_text said.now) }
{
    let mut text = Vec::new(alloc);
    put_verdict(&mut text, said)?;
    if let Some(content) = &said.content {
        put_content(&mut text, content)?;
    }
    Ok(text)
}

/// Appends status, rule and place.
#[tactic(auto, unfolding(crate::specs::Printed::verdict_text))]
fn put_verdict(text: &mut Vec<u8>, said: &DecodeSaid) -> Result<(), NoMemory>
    ensures { OnOk result (text.new.items ≡ text.old.items ++ verdict_text said.now) }
{
    put_number(text, "STATUS", u64::from(said.status))?;
    put_number(text, "RULE", u64::from(said.rule))?;
    put_place(text, said.place)
}

/// Appends the place.
fn put_place(text: &mut Vec<u8>, place: u64) -> Result<(), NoMemory>
    ensures { OnOk result
        (text.new.items ≡ text.old.items ++ field (codes "PLACE") (place_text place)) }
{
    if place == NO_PLACE {
        return put_field(text, "PLACE", "none");
    }
    put_number(text, "PLACE", place)
}

/// Appends a content.
fn put_content(text: &mut Vec<u8>, content: &Content) -> Result<(), NoMemory>
    ensures { OnOk result
        (text.new.items ≡ text.old.items ++ content_text (Some content.now)) }
{
    put_origin(text, content)?;
    put_times(text, content)?;
    put_owner(text, content)?;
    put_restrictions(text, content)?;
    put_payload(text, content.payload.bytes())
}

/// Appends how and where a content was sealed.
#[tactic(auto, unfolding(crate::specs::Printed::origin_text))]
fn put_origin(text: &mut Vec<u8>, content: &Content) -> Result<(), NoMemory>
    ensures { OnOk result (text.new.items ≡ text.old.items ++ origin_text content.now) }
{
    put_number(text, "CIPHER", u64::from(content.cipher))?;
    put_number(text, "MAC", u64::from(content.kind))?;
    put_address(text, content.addr)
}

/// Appends when a content was sealed and for how long it is good.
#[tactic(auto, unfolding(crate::specs::Printed::times_text))]
fn put_times(text: &mut Vec<u8>, content: &Content) -> Result<(), NoMemory>
    ensures { OnOk result (text.new.items ≡ text.old.items ++ times_text content.now) }
{
    put_number(text, "TIME", u64::from(content.time))?;
    put_number(text, "TTL", u64::from(content.ttl))
}

/// Appends who asked for a content.
#[tactic(auto, unfolding(crate::specs::Printed::owner_text))]
fn put_owner(text: &mut Vec<u8>, content: &Content) -> Result<(), NoMemory>
    ensures { OnOk result (text.new.items ≡ text.old.items ++ owner_text content.now) }
{
    put_number(text, "UID", u64::from(content.uid))?;
    put_number(text, "GID", u64::from(content.gid))
}

/// Appends who may open a content.
#[tactic(auto, unfolding(crate::specs::Printed::restrictions_text))]
fn put_restrictions(text: &mut Vec<u8>, content: &Content) -> Result<(), NoMemory>
    ensures { OnOk result
        (text.new.items ≡ text.old.items ++ restrictions_text content.now) }
{
    put_restriction(text, "UID_RESTRICTION", content.for_uid)?;
    put_restriction(text, "GID_RESTRICTION", content.for_gid)
}

/// Appends how long a payload is, an empty line and the payload.
#[tactic(auto, unfolding(crate::specs::Printed::payload_text))]
fn put_payload(text: &mut Vec<u8>, payload: &[u8]) -> Result<(), NoMemory>
    ensures { OnOk result (text.new.items ≡ text.old.items ++ payload_text payload.now) }
{
    put_number(text, "LENGTH", payload.len() as u64)?;
    put(text, b"\n")?;
    put(text, payload)
}

/// Appends an address.
fn put_address(text: &mut Vec<u8>, addr: [u8; 4]) -> Result<(), NoMemory>
    ensures { OnOk result
        (text.new.items ≡ text.old.items ++ field (codes "ADDRESS") (address_text addr)) }
{
    put(text, b"ADDRESS: ")?;
    put_part(text, addr[0], ".")?;
    put_part(text, addr[1], ".")?;
    put_part(text, addr[2], ".")?;
    put_part(text, addr[3], "\n")
}

/// Appends a number of an address, and what stands behind it.
fn put_part(text: &mut Vec<u8>, number: u8, end: &str) -> Result<(), NoMemory>
    ensures { OnOk result (text.new.items ≡ text.old.items ++ (decimal number ++ end.now)) }
{
    put(text, Buffer::new().format(number).as_bytes())?;
    put(text, end.as_bytes())
}

/// Appends a line of a name and a restriction.
fn put_restriction(text: &mut Vec<u8>, name: &str, id: u32) -> Result<(), NoMemory>
    ensures { OnOk result
        (text.new.items ≡ text.old.items ++ field name.now (restriction_text id)) }
{
    if id == ANY {
        return put_field(text, name, "any");
    }
    put_number(text, name, u64::from(id))
}

/// Appends a line of a name and a number.
fn put_number(text: &mut Vec<u8>, name: &str, number: u64) -> Result<(), NoMemory>
    ensures { OnOk result (text.new.items ≡ text.old.items ++ field name.now (decimal number)) }
{
    put_field(text, name, Buffer::new().format(number))
}

/// Appends a line of a name and a value.
fn put_field(text: &mut Vec<u8>, name: &str, value: &str) -> Result<(), NoMemory>
    ensures { OnOk result (text.new.items ≡ text.old.items ++ field name.now value.now) }
{
    put(text, name.as_bytes())?;
    put(text, b": ")?;
    put(text, value.as_bytes())?;
    put(text, b"\n")
}

/// Appends bytes.
fn put(text: &mut Vec<u8>, part: &[u8]) -> Result<(), NoMemory>
    ensures { OnOk result (text.new.items ≡ text.old.items ++ part.now) }
{
    text.extend_from_slice(part)?;
    Ok(())
}
