ghost use Rattle.std.specs.Prelude.{◌≡◌, ◌+◌, ◌^◌, ◌<◌, ◌≤◌, ◌++◌, ℕ, List, length, All, IfOk, OnOk};
ghost use Rattle.event_table.specs.Gathered.{events_of_tables};
ghost use Rattle.event_table.specs.Numbers.{events_under};
ghost use Rattle.event_table.specs.inner.Tables.{AreWithin};
ghost use Rattle.event_table.specs.inner.Growth.{AreFewMessages, AreFewTexts, GrowsBy, MessagesGrowBy};
ghost use Rattle.event_table.specs.inner.Growth.{TextsGrowBy};
ghost use Rattle.event_table.specs.inner.Renumbering.{AreAllNumbersOf, AreNumbersOf, part_events};
ghost use Rattle.event_table.specs.inner.Renumbering.{whole_events};

use crate::messages::Messages;
use crate::numbered_part::{NumberedPart, TextNumbers};
use crate::{EventTable, TextTable, Texts};
use std::alloc::{AllocError, Global};

/// The texts and messages of all parts, and the parts with their numbers and places in these.
#[derive(Drop)]
pub(crate) struct NumberedParts {
    pub(crate) texts: Texts,
    pub(crate) messages: Messages,
    pub(crate) parts: Vec<NumberedPart>,
}

/// Gives the numbers from 0 on, so many: those of the texts of a table in the table itself.
fn count_up(alloc: Global, count: usize) -> Result<Vec<u32>, AllocError>
    requires { count ≤ 2 ^ 32 }
    ensures { IfOk result (λ v. (texts : List (List ℕ)) → length texts ≡ count
        → AreNumbersOf texts texts v.items) }
{
    let mut numbers = Vec::with_capacity(alloc, count)?;
    for number in 0..count {
        numbers.push(number as u32)?;
    }
    Ok(numbers)
}

/// Numbers the texts of a part in the whole table; those that are new are appended. The table of
/// the first part becomes the whole one as it is. The only error is out of memory.
fn number_texts(
    alloc: Global,
    whole: &mut TextTable,
    texts: TextTable,
) -> Result<Vec<u32>, AllocError>
    requires { length whole.old + length texts ≤ 2 ^ 32 }
    ensures grown { OnOk result (GrowsBy (length texts) whole.old whole.new) }
    ensures numbers { IfOk result (λ v. AreNumbersOf whole.new texts v.items) }
{
    if whole.len() == 0 {
        let own = count_up(alloc, texts.len())?;
        *whole = texts;
        return Ok(own);
    }
    let mut numbers = Vec::with_capacity(alloc, texts.len())?;
    for text in texts.into_texts() {
        numbers.push(whole.insert(alloc, text)?)?;
    }
    Ok(numbers)
}

/// Numbers the texts of a part in the whole tables, kind by kind.
fn number_kinds(alloc: Global, whole: &mut Texts, texts: Texts) -> Result<TextNumbers, AllocError>
    requires { (count : ℕ) × (more : ℕ) × AreFewTexts count whole.old × AreFewTexts more texts
        × (count + more < 2 ^ 32) }
    ensures grown { OnOk result ((more : ℕ) → AreFewTexts more texts
        → TextsGrowBy more whole.old whole.new) }
    ensures numbers { IfOk result (AreAllNumbersOf whole.new texts) }
{
    Ok(TextNumbers {
        requests: number_texts(alloc, &mut whole.requests, texts.requests)?,
        machines: number_texts(alloc, &mut whole.machines, texts.machines)?,
        tasks: number_texts(alloc, &mut whole.tasks, texts.tasks)?,
        names: number_texts(alloc, &mut whole.names, texts.names)?,
    })
}

/// Appends the messages of a part to those of the parts before it.
fn append_messages(messages: &mut Messages, later: Messages) -> Result<(), AllocError>
    ensures sends { OnOk result (messages.new.sends ≡ messages.old.sends ++ later.sends) }
    ensures receipts { OnOk result
        (messages.new.receipts ≡ messages.old.receipts ++ later.receipts) }
{
    messages.sends.append(later.sends)?;
    messages.receipts.append(later.receipts)
}

/// Numbers the texts of a part in the whole tables, and appends its messages to all.
fn number_part(
    alloc: Global,
    whole: &mut Texts,
    messages: &mut Messages,
    part: EventTable,
) -> Result<NumberedPart, AllocError>
    requires { (count : ℕ) × AreFewTexts count whole.old × AreFewMessages count messages.old
        × (count + length part < 2 ^ 32) }
    ensures texts { OnOk result (TextsGrowBy (length part) whole.old whole.new) }
    ensures messages { OnOk result (MessagesGrowBy (length part) messages.old messages.new) }
    ensures events { IfOk result (λ p. events_under whole.new messages.new (part_events p)
        ≡ part) }
    ensures within { IfOk result (λ p. All (AreWithin whole.new messages.new) (part_events p)) }
{
    let (texts, own, events) = part.into_parts();
    let numbers = number_kinds(alloc, whole, texts)?;
    let sends = messages.sends().len() as u32;
    let receipts = messages.receipts().len() as u32;
    append_messages(messages, own)?;
    Ok(NumberedPart {
        numbers,
        sends,
        receipts,
        events,
    })
}

/// Numbers the texts of parts in the whole tables, part after part, and appends their messages and
/// the parts. The only error is out of memory.
fn add_parts(
    alloc: Global,
    whole: &mut NumberedParts,
    parts: Vec<EventTable>,
) -> Result<(), AllocError>
    requires texts { AreFewTexts (length (whole_events whole.old.parts.items)) whole.old.texts }
    requires messages { AreFewMessages (length (whole_events whole.old.parts.items))
        whole.old.messages }
    requires within { All (AreWithin whole.old.texts whole.old.messages)
        (whole_events whole.old.parts.items) }
    requires few { length (events_under whole.old.texts whole.old.messages
        (whole_events whole.old.parts.items) ++ events_of_tables parts.items) < 2 ^ 32 }
    ensures events { OnOk result (events_under whole.new.texts whole.new.messages
        (whole_events whole.new.parts.items)
        ≡ events_under whole.old.texts whole.old.messages (whole_events whole.old.parts.items)
        ++ events_of_tables parts.items) }
    ensures within { OnOk result (All (AreWithin whole.new.texts whole.new.messages)
        (whole_events whole.new.parts.items)) }
{
    for part in parts {
        let numbered = number_part(alloc, &mut whole.texts, &mut whole.messages, part)?;
        whole.parts.push(numbered)?;
    }
    Ok(())
}

/// Numbers the texts of all parts in the same tables, part after part, and appends all messages.
/// The only error is out of memory.
pub(crate) fn number_parts(
    alloc: Global,
    parts: Vec<EventTable>,
) -> Result<NumberedParts, AllocError>
    requires { length (events_of_tables parts.items) < 2 ^ 32 }
    ensures events { IfOk result (λ n. events_under n.texts n.messages (whole_events n.parts.items)
        ≡ events_of_tables parts.items) }
    ensures within { IfOk result (λ n. All (AreWithin n.texts n.messages)
        (whole_events n.parts.items)) }
{
    let numbered = Vec::with_capacity(alloc, parts.len())?;
    let mut whole = NumberedParts {
        texts: Texts::new(alloc),
        messages: Messages::new(alloc),
        parts: numbered,
    };
    add_parts(alloc, &mut whole, parts)?;
    Ok(whole)
}
