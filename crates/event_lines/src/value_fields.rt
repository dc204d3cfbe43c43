ghost use Rattle.std.specs.Prelude.{ℕ, nat_lt, ◌≡◌, ◌*◌, ◌≤◌, true, false};
ghost use Rattle.std.specs.Prelude.{IfOk, IfErr, Some, option_map};
ghost use Rattle.std.specs.Option.{option_map_or};
ghost use Rattle.serde_json.specs.Data.{Data};
ghost use Rattle.serde_json.specs.View.{view};
ghost use Rattle.event_lines.specs.TimeUnits.{latest_in, nanoseconds_in};
ghost use Rattle.event_lines.specs.EventFaults.{event_line_fault, has_bad_text, is_bad_text};
ghost use Rattle.event_lines.specs.inner.Fields.{AreEventFields};

use crate::Why;
use crate::object_members::{as_text, as_whole_number, member, optional_text};
use crate::text_rules::is_bad_text;
use crate::time_unit::TimeUnit;
use event_table::EventFields;
use serde_json::Value;

/// Converts a time that must be in range to nanoseconds.
pub(crate) fn in_nanoseconds(unit: TimeUnit, number: Option<u64>) -> Result<u64, Why>
    ensures found { IfOk result (λ time. (n : ℕ) × (number ≡ Some n) × (n ≤ latest_in unit)
        × (time ≡ nanoseconds_in unit * n)) }
    ensures none { IfErr result (λ why.
        (option_map_or (nat_lt (latest_in unit)) number true ≡ true) × (why ≡ Why.OutOfRange)) }
{
    match number {
        Some(number) if number <= unit.latest() => Ok(unit.nanoseconds() * number),
        _ => Err(Why::OutOfRange),
    }
}

/// Reads the fields of an event line. The error is the first that holds of `Missing`, `WrongKind`
/// and `OutOfRange`.
pub(crate) fn fields_of(value: &Value) -> Result<EventFields<'_>, Why>
    ensures found { IfOk result (λ f. AreEventFields f (view value.now)) }
    ensures fault { IfErr result (λ why. event_line_fault (view value.now) ≡ Some why) }
{
    let unit = TimeUnit::of(value);
    let request = member(value, "request")?;
    let machine = member(value, "machine")?;
    let task = member(value, "task")?;
    let event = member(value, "event")?;
    let time = member(value, unit.member())?;

    let request = as_text(request)?;
    let machine = as_text(machine)?;
    let task = as_text(task)?;
    let event = as_text(event)?;
    let number = as_whole_number(time)?;
    let send = optional_text(value, "send")?;
    let recv = optional_text(value, "recv")?;

    Ok(EventFields {
        request,
        machine,
        task,
        event,
        time: in_nanoseconds(unit, number)?,
        send,
        recv,
    })
}

/// Tells whether there is a text and it is bad.
fn is_some_bad_text(text: Option<&str>) -> bool
    ensures { result ≡ option_map_or is_bad_text (option_map (λ s. s.now) text.entry) false }
{
    text.is_some_and(is_bad_text)
}

/// Tells whether one of the texts is bad.
pub(crate) fn has_bad_text(fields: &EventFields<'_>) -> bool
    ensures { (d : Data) → AreEventFields fields.now d → has_bad_text d ≡ result }
{
    is_bad_text(fields.request)
        || is_bad_text(fields.machine)
        || is_bad_text(fields.task)
        || is_bad_text(fields.event)
        || is_some_bad_text(fields.send)
        || is_some_bad_text(fields.recv)
}
