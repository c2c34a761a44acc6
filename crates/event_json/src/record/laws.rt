//! What is proved of records' texts.

ghost use Rattle.std.specs.Prelude.{◌≡◌, List, ℕ};
ghost use Rattle.messages.specs.declared.record.RecordParts.{RecordParts};
ghost use Rattle.event_json.specs.Texts.{record_form};
ghost use Rattle.event_json.specs.Written.{IsDurable, IsWritten};

/// A text is the written form of one record, also where it is the form of before.
pub fn one_record()
    ensures forms { (d e : RecordParts) → IsDurable d → IsDurable e → record_form d ≡ record_form e
        → d ≡ e }
    ensures texts { (d e : RecordParts) (text : List ℕ) → IsWritten d text → IsWritten e text
        → d ≡ e }
{}
