//! The record that a kept text is.

ghost use Rattle.std.specs.Prelude.{◌≡◌, ◌≢◌, true, false, Some, IfOk, IfErr, IsErrOf, option_map, string_bytes};
ghost use Rattle.sqlite.specs.declared.types.Value.TheVariants.{Text};
ghost use Rattle.messages.specs.declared.record.RecordParts.{RecordParts};
ghost use Rattle.event_json.specs.Texts.{record_form};
ghost use Rattle.event_json.specs.Written.{IsDurable, IsWritten};
ghost use Rattle.agent_core.specs.Records.{is_record};
ghost use Rattle.keep_store.specs.Kept.{IsDamaged, IsLoaded, IsRecordText, shown_body};

use agent_core::Record;
use event_json::{RecordFault, record_of};
use keep_tables::KeepFault;
use messages::RecordParts;
use sqlite::{Error, ErrorCode, Row};
use std::alloc::Global;

/// A record, if an agent can have it.
pub fn of_an_agent(alloc: Global, durable: RecordParts) -> Result<Record, KeepFault>
    ensures ok { IfOk result (λ found. (found ≡ durable) × (is_record durable ≡ true)) }
    ensures damaged { IsErrOf result KeepFault.Damaged → is_record durable ≡ false }
    ensures unspent { IfErr result (λ e. e ≢ KeepFault.RunsSpent) }
{
    match Record::of(alloc, durable) {
        Ok(Some(found)) => Ok(found),
        Ok(None) => Err(KeepFault::Damaged),
        Err(_) => Err(KeepFault::OutOfMemory),
    }
}

/// The record of a text.
fn record_at(alloc: Global, text: &str) -> Result<Record, KeepFault>
    ensures ok { IfOk result (λ found. IsRecordText found text.now) }
    ensures only { (d : RecordParts) → IsWritten d text.now → IfOk result (λ found. found ≡ d) }
    ensures damaged { IsErrOf result KeepFault.Damaged → (d : RecordParts) → IsRecordText d text.now
        → ⊥ }
    ensures unspent { IfErr result (λ e. e ≢ KeepFault.RunsSpent) }
{
    match record_of(alloc, text) {
        Ok(durable) => of_an_agent(alloc, durable),
        Err(RecordFault::Damaged) => Err(KeepFault::Damaged),
        Err(RecordFault::OutOfMemory) => Err(KeepFault::OutOfMemory),
    }
}

/// The record of the text of a row, if there is one.
pub fn record_in(alloc: Global, text: Option<String>) -> Result<Option<Record>, KeepFault>
    ensures loaded { IfOk result (IsLoaded (option_map (λ text. Text (string_bytes text)) text)) }
    ensures saved { (d : RecordParts) → IsDurable d
        → option_map (λ text. Text (string_bytes text)) text ≡ Some (Text (record_form d))
        → IfOk result (λ found. found ≡ Some d) }
    ensures damaged { IsErrOf result KeepFault.Damaged
        → IsDamaged (option_map (λ text. Text (string_bytes text)) text) }
    ensures unspent { IfErr result (λ e. e ≢ KeepFault.RunsSpent) }
{
    let Some(text) = text else {
        return Ok(None);
    };
    let found = record_at(alloc, text.as_str())?;
    Ok(Some(found))
}

/// The text in the first row, if there is a row.
pub fn first_body(rows: &[Row]) -> Result<Option<String>, KeepFault>
    ensures text { IfOk result (λ found. option_map (λ text. Text (string_bytes text)) found
        ≡ shown_body rows.now) }
    ensures damaged { IsErrOf result KeepFault.Damaged → IsDamaged (shown_body rows.now) }
    ensures unspent { IfErr result (λ e. e ≢ KeepFault.RunsSpent) }
{
    let Some(row) = rows.first() else {
        return Ok(None);
    };
    match row.get::<String>(0) {
        Ok(body) => Ok(Some(body)),
        Err(Error::SqliteFailure(ErrorCode::OutOfMemory)) => Err(KeepFault::OutOfMemory),
        Err(_) => Err(KeepFault::Damaged),
    }
}
