ghost use Rattle.std.specs.Prelude.{◌≡◌, map};
ghost use Rattle.json.specs.Value.{value_view};
ghost use Rattle.span_text.specs.Outcomes.{Gives};
ghost use Rattle.span_text.specs.Spans.{origin_view};
ghost use Rattle.jaeger_spans.specs.Origins.{as_required_object, process_named, process_of};
ghost use Rattle.jaeger_spans.specs.Origins.{service_named, machine_of, origin_of};

use json::Value;
use span_text::{
    Member, Origin, ReadError, TagForm, Why, is_object, objects, required, required_text, tag,
};

/// Takes a value that must be an object.
fn as_required_object<'v, 'a>(
    value: &'v Value<'a>,
    member: Member,
) -> Result<&'v Value<'a>, ReadError>
    ensures { Gives (λ v. value_view v.now) result
        (as_required_object member (value_view value.now)) }
{
    if is_object(value) {
        Ok(value)
    } else {
        Err(ReadError::Refused(Why::Bad(member)))
    }
}

/// Finds the process with this name.
fn process_named<'v, 'a>(name: &str, processes: &'v Value<'a>) -> Result<&'v Value<'a>, ReadError>
    ensures { Gives (λ v. value_view v.now) result
        (process_named name.now (value_view processes.now)) }
{
    match processes.get(name) {
        Some(found) if !found.is_null() => Ok(found),
        _ => Err(ReadError::Refused(Why::Bad(Member::ProcessId))),
    }
}

/// Finds the process of a span among those of its trace.
#[tactic(auto, unfolding(crate::specs::Origins::process_of))]
fn process_of<'v, 'a>(trace: &'v Value<'a>, span: &Value<'_>) -> Result<&'v Value<'a>, ReadError>
    ensures { Gives (λ v. value_view v.now) result
        (process_of (value_view trace.now) (value_view span.now)) }
{
    let found = required(trace, Member::Processes)?;
    let processes = as_required_object(found, Member::Processes)?;
    let name = required_text(span, Member::ProcessId)?;
    let process = process_named(name, processes)?;
    as_required_object(process, Member::Processes)
}

/// Gives the service, where it is named.
fn service_named(name: &str) -> &str
    ensures { result.now ≡ service_named name.now }
{
    if name.is_empty() {
        "unknown_service"
    } else {
        name
    }
}

/// Finds the machine that the tags of a process name, else its service.
fn machine_of<'v>(service: &'v str, tags: &'v [Value<'_>]) -> &'v str
    ensures { result.now ≡ machine_of service.now (map value_view tags.now) }
{
    let address = tag(TagForm::Plain, "ip", tags).unwrap_or(service);
    tag(TagForm::Plain, "hostname", tags).unwrap_or(address)
}

/// Finds the service and the machine of a span.
#[tactic(auto, unfolding(crate::specs::Origins::origin_of))]
pub(crate) fn read_origin<'v, 'a>(
    trace: &'v Value<'a>,
    span: &Value<'_>,
) -> Result<Origin<'v>, ReadError>
    ensures { Gives origin_view result (origin_of (value_view trace.now) (value_view span.now)) }
{
    let process = process_of(trace, span)?;
    let name = required_text(process, Member::ServiceName)?;
    let tags = objects(process, Member::Tags)?;
    let service = service_named(name);
    let machine = machine_of(service, tags);
    Ok(Origin { service, machine })
}
