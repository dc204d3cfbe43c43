ghost use Rattle.std.specs.Prelude.{◌≡◌, ◌==◌, length, slice_index, Some, false, IsTrue, IfOk, IfSome};
ghost use Rattle.serde_json.specs.Data.{Members, no_members, object, number, string, unsigned, put};
ghost use Rattle.serde_json.specs.Read.{number_of};
ghost use Rattle.event_lines.specs.LineResults.{json_value};
ghost use Rattle.event_lines.specs.inner.Fields.{AreEventFields};
ghost use Rattle.event_lines.specs.EventFaults.{is_bad_text};
ghost use Rattle.event_lines.specs.inner.PlainObjects.{AreGood, HasGoodTexts};
ghost use Rattle.event_lines.specs.inner.FlatObjects.{AreMembers, IsEventLine, members_ahead};

use crate::time_unit::TimeUnit;
use crate::value_fields::in_nanoseconds;
use event_table::EventFields;
use fast_float::Numeral;
use json::{Reader, Scratch, Token};
use simdutf8::basic::from_utf8;
use std::alloc::AllocError;

/// The members of a flat object that an event line may have, as far as they were read.
#[derive(Drop)]
pub(crate) struct FlatMembers<'a> {
    /// The request.
    request: Option<&'a str>,
    /// The machine.
    machine: Option<&'a str>,
    /// The task.
    task: Option<&'a str>,
    /// The name of the event.
    event: Option<&'a str>,
    /// The message that is sent.
    send: Option<&'a str>,
    /// The message that is received.
    recv: Option<&'a str>,
    /// The time in microseconds.
    time: Option<u64>,
    /// The time in nanoseconds.
    nanos: Option<u64>,
}

/// Tells whether the bytes begin with a minus.
fn has_minus(bytes: &[u8]) -> bool
    ensures { result ≡ (slice_index bytes.now 0 == 45) }
{
    !bytes.is_empty() && bytes[0] == b'-'
}

/// Reads a JSON number that is whole, is not below 0 and fits 64 bits, without fraction or
/// exponent.
pub(crate) fn whole_number(bytes: &[u8]) -> Option<u64>
    ensures { IfSome result (λ n. number_of bytes.now ≡ Some (unsigned n)) }
{
    if has_minus(bytes) {
        return None;
    }
    Numeral::scan(bytes).to_u64()
}

impl<'a> FlatMembers<'a> {
    /// Starts with no members.
    pub(crate) fn new() -> FlatMembers<'a>
        ensures none { AreMembers result no_members }
        ensures good { AreGood result }
    {
        FlatMembers {
            request: None,
            machine: None,
            task: None,
            event: None,
            send: None,
            recv: None,
            time: None,
            nanos: None,
        }
    }

    /// Adds a member that is a text; false where this way does not read it.
    pub(crate) fn put_text(&mut self, key: &str, text: &'a str) -> bool
        ensures put { IsTrue result → (ms : Members) → AreMembers self.old ms
            → AreMembers self.new (put key.now (string text.now) ms) }
        ensures good { IsTrue result → is_bad_text text.now ≡ false → AreGood self.old
            → AreGood self.new }
    {
        match key {
            "request" => self.request = Some(text),
            "machine" => self.machine = Some(text),
            "task" => self.task = Some(text),
            "event" => self.event = Some(text),
            "send" => self.send = Some(text),
            "recv" => self.recv = Some(text),
            "time" | "nanos" | "do" => return false,
            _ => {}
        }
        true
    }

    /// Adds a member that is a whole number from 0 up; false where this way does not read it.
    pub(crate) fn put_number(&mut self, key: &str, value: u64) -> bool
        ensures put { IsTrue result → (ms : Members) → AreMembers self.old ms
            → AreMembers self.new (put key.now (number (unsigned value)) ms) }
        ensures good { IsTrue result → AreGood self.old → AreGood self.new }
    {
        match key {
            "time" => self.time = Some(value),
            "nanos" => self.nanos = Some(value),
            "request" | "machine" | "task" | "event" | "send" | "recv" | "do" => return false,
            _ => {}
        }
        true
    }

    /// Gives the fields of the event line, where it has what it must have and its time is in range.
    pub(crate) fn fields(&self) -> Option<EventFields<'a>>
        ensures fields { IfSome result (λ f. (ms : Members) → AreMembers self.now ms
            → AreEventFields f (object ms)) }
        ensures good { AreGood self.now → IfSome result HasGoodTexts }
    {
        let (unit, number) = match self.nanos {
            Some(number) => (TimeUnit::Nanoseconds, number),
            None => (TimeUnit::Microseconds, self.time?),
        };
        Some(EventFields {
            request: self.request?,
            machine: self.machine?,
            task: self.task?,
            event: self.event?,
            time: in_nanoseconds(unit, Some(number)).ok()?,
            send: self.send,
            recv: self.recv,
        })
    }
}

/// Reads the members of an object after its opening brace; none where this way does not read them.
fn read_members<'a>(reader: &mut Reader<'a>) -> Option<FlatMembers<'a>>
    ensures { IfSome result (λ f. (ms : Members) × AreMembers f ms
        × (members_ahead (length reader.old) no_members reader.old ≡ Some (ms, reader.new))) }
{
    let mut found = FlatMembers::new();
    'members: while let Some(key) = reader.next_key().ok()? {
        match reader.next()? {
            Token::String(text) => {
                if !found.put_text(key, text) {
                    return None;
                }
            }
            Token::Number(text) => {
                if !found.put_number(key, whole_number(text.as_bytes())?) {
                    return None;
                }
            }
            _ => return None,
        }
    }
    Some(found)
}

/// Reads a line that is one flat object; none where this way does not read it. The only error is
/// out of memory.
fn read_object<'a>(
    line: &'a [u8],
    scratch: &'a mut Scratch,
) -> Result<Option<FlatMembers<'a>>, AllocError>
    ensures { IfOk result (λ o. IfSome o (λ f. (ms : Members) × AreMembers f ms
        × (json_value line.now ≡ Some (object ms)))) }
{
    let Ok(text) = from_utf8(line) else {
        return Ok(None);
    };
    let mut reader = Reader::new(text, scratch)?;
    let Some(Token::BeginObject) = reader.next() else {
        return Ok(None);
    };
    let Some(found) = read_members(&mut reader) else {
        return Ok(None);
    };
    if reader.next().is_some() {
        return Ok(None);
    }
    Ok(Some(found))
}

/// Reads the fields of an event line straight from its tokens, without a JSON value.
///
/// It reads flat objects whose texts and whole numbers are of their kinds; for any other line the
/// answer is none, which says nothing of the line. The only error is out of memory.
pub(crate) fn flat_fields<'a>(
    line: &'a [u8],
    scratch: &'a mut Scratch,
) -> Result<Option<EventFields<'a>>, AllocError>
    ensures { IfOk result (λ o. IfSome o (λ f. IsEventLine line.now f)) }
{
    match read_object(line, scratch)? {
        Some(found) => Ok(found.fields()),
        None => Ok(None),
    }
}
