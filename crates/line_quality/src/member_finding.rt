ghost use Rattle.std.specs.Prelude.{◌≡◌, IfOk, codes, false, find, option_map, unwrap_or};
ghost use Rattle.std.specs.Option.{option_map_or};
ghost use Rattle.serde_json.specs.View.{view};
ghost use Rattle.event_lines.specs.EventFaults.{is_bad_text};
ghost use Rattle.event_lines.specs.LineResults.{json_value};
ghost use Rattle.event_lines.specs.Members.{has_member, is_given, is_text_at, is_whole_at, text_at};
ghost use Rattle.line_quality.specs.Members.{control_members, event_members, has_wrong_kind};
ghost use Rattle.line_quality.specs.Members.{is_at_fault, member_at_fault, member_in};
ghost use Rattle.line_quality.specs.Members.{number_member, time_in};

use crate::Member;
use event_lines::{Why, is_bad_text};
use serde_json::Value;
use std::alloc::{AllocError, Global};

/// Reads a line as a JSON value; none where it has no such reading.
fn parse(alloc: Global, line: &[u8]) -> Result<Option<Value>, AllocError>
    ensures { IfOk result (λ v. option_map view v ≡ json_value line.now) }
{
    match Value::from_slice(alloc, line) {
        Ok(value) => Ok(Some(value)),
        Err(error) if error.is_memory() => Err(AllocError),
        Err(_) => Ok(None),
    }
}

/// Tells whether the object has the member.
fn has_member(value: &Value, name: &str) -> bool
    ensures { result ≡ has_member name.now (view value.now) }
{
    value.get(name).is_some()
}

/// Tells whether the object has the member, and its value is not null.
fn is_given(value: &Value, name: &str) -> bool
    ensures { result ≡ is_given name.now (view value.now) }
{
    match value.get(name) {
        Some(member) => !member.is_null(),
        None => false,
    }
}

/// Tells whether the member is a text.
fn is_text(value: &Value, name: &str) -> bool
    ensures { result ≡ is_text_at name.now (view value.now) }
{
    match value.get(name) {
        Some(member) => member.as_str().is_some(),
        None => false,
    }
}

/// Tells whether the member is a whole number.
fn is_whole(value: &Value, name: &str) -> bool
    ensures { result ≡ is_whole_at name.now (view value.now) }
{
    match value.get(name) {
        Some(member) => member.as_u64().is_some() || member.as_i64().is_some(),
        None => false,
    }
}

/// Tells whether the member is a bad text.
fn is_bad(value: &Value, name: &str) -> bool
    ensures { result ≡ option_map_or is_bad_text (text_at name.now (view value.now)) false }
{
    match value.get(name) {
        Some(member) => match member.as_str() {
            Some(text) => is_bad_text(text),
            None => false,
        },
        None => false,
    }
}

/// Tells whether the member is no text, or no whole number, where it must be one.
fn has_wrong_kind(value: &Value, member: Member) -> bool
    ensures { result ≡ has_wrong_kind (view value.now) member }
{
    match member {
        Member::Whole => false,
        Member::Request => !is_text(value, "request"),
        Member::Machine => !is_text(value, "machine"),
        Member::Task => !is_text(value, "task"),
        Member::Event => !is_text(value, "event"),
        Member::Time => !is_whole(value, "time"),
        Member::Nanos => !is_whole(value, "nanos"),
        Member::Send => is_given(value, "send") && !is_text(value, "send"),
        Member::Recv => is_given(value, "recv") && !is_text(value, "recv"),
        Member::Do => !is_text(value, "do"),
        Member::Day => !is_whole(value, "day"),
        Member::Days => !is_whole(value, "days"),
        Member::Every => !is_whole(value, "every"),
        Member::Micros => !is_whole(value, "micros"),
    }
}

/// Tells whether the reason is due to the member.
fn is_at_fault(value: &Value, member: Member, why: Why) -> bool
    ensures { result ≡ is_at_fault why (view value.now) member }
{
    match why {
        Why::NotJson => false,
        Why::Missing => !has_member(value, member.as_str()),
        Why::WrongKind => has_wrong_kind(value, member),
        Why::OutOfRange => member.is_number(),
        Why::BadText => is_bad(value, member.as_str()),
        Why::UnknownCommand => true,
    }
}

/// Finds the first of these members that the reason is due to, or the line as a whole.
fn find_first(value: &Value, members: &[Member], why: Why) -> Member
    ensures { result ≡ unwrap_or (find (is_at_fault why (view value.now)) members.now) Member.Whole }
{
    for member in members {
        if is_at_fault(value, *member, why) {
            return *member;
        }
    }
    Member::Whole
}

/// Gives the member that has the time of an event line.
fn time_member(value: &Value) -> Member
    ensures { result ≡ time_in (view value.now) }
{
    if is_given(value, "nanos") {
        Member::Nanos
    } else {
        Member::Time
    }
}

/// Gives the member that has the number of the command with this name, or `do`.
fn number_member(name: &str) -> Member
    ensures { result ≡ number_member name.now }
{
    match name {
        "drop" => Member::Day,
        "keep" => Member::Days,
        "watch" => Member::Every,
        "grace" => Member::Micros,
        _ => Member::Do,
    }
}

/// Gives the member that has the number of a control line's command, or `do`.
fn control_number(value: &Value) -> Member
    ensures { result ≡ option_map_or number_member (text_at (codes "do") (view value.now)) Member.Do }
{
    match value.get("do") {
        Some(member) => match member.as_str() {
            Some(name) => number_member(name),
            None => Member::Do,
        },
        None => Member::Do,
    }
}

/// Finds the member of a control line that the reason is due to.
fn find_in_control(value: &Value, why: Why) -> Member
    ensures { result ≡ unwrap_or
        (find (is_at_fault why (view value.now)) (control_members (view value.now))) Member.Whole }
{
    let members = [Member::Do, control_number(value)];
    find_first(value, &members, why)
}

/// Finds the member of an event line that the reason is due to.
fn find_in_event(value: &Value, why: Why) -> Member
    ensures { result ≡ unwrap_or
        (find (is_at_fault why (view value.now)) (event_members (view value.now))) Member.Whole }
{
    let members = [
        Member::Request,
        Member::Machine,
        Member::Task,
        Member::Event,
        time_member(value),
        Member::Send,
        Member::Recv,
    ];
    find_first(value, &members, why)
}

/// Finds the member of a line's value that the reason is due to.
fn find_in_value(value: &Value, why: Why) -> Member
    ensures { result ≡ member_in why (view value.now) }
{
    if has_member(value, "do") {
        find_in_control(value, why)
    } else {
        find_in_event(value, why)
    }
}

/// Finds the first member of a bad line that its reason is due to, or the line as a whole. The only
/// error is out of memory.
pub(crate) fn find_member(alloc: Global, line: &[u8], why: Why) -> Result<Member, AllocError>
    ensures { IfOk result (λ m. m ≡ member_at_fault why line.now) }
{
    match parse(alloc, line)? {
        Some(value) => Ok(find_in_value(&value, why)),
        None => Ok(Member::Whole),
    }
}
