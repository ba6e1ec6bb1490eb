//! A line of JSON read as a row.

ghost use Rattle.std.specs.Prelude.{◌≡◌, ◌≢◌, Some, IfOk, IfErr, IfSome, IfNone, option_map};
ghost use Rattle.serde_json.specs.View.{view};
ghost use Rattle.seg_core.specs.declared.seg_type.SegType.{SegType};
ghost use Rattle.seg_core.specs.SegmentView.{SegmentView};
ghost use Rattle.row_map.specs.Database.{RowView};
ghost use Rattle.row_lines.specs.Text.{type_word};
ghost use Rattle.row_lines.specs.Reading.{text_under, AreDigitsOf, IsRowOf, IsRowLine, IsWhyNoSegment, IsWhyNoRow, IsWhyNoLine};
ghost use Rattle.row_lines.specs.declared.reading.LineError.TheVariants as error;

use seg_core::{SegError, SegType, Segment, read_segment};
use serde_json::Value;
use std::alloc::Global;
use thiserror::Error;

/// Why a line has no row.
#[derive(Clone, Copy, Debug, PartialEq, Eq, Error)]
pub enum LineError {
    /// Memory was refused.
    #[error("out of memory")]
    NoMemory,
    /// The line is no value of JSON.
    #[error("it is no JSON")]
    Json,
    /// Its member `type` is none of `up`, `down` and `core`.
    #[error("its type is none of up, down and core")]
    Type,
    /// Its member `segment` is no hexadecimal text.
    #[error("its segment is no hexadecimal text")]
    Hex,
    /// The bytes of that text are no segment.
    #[error("its segment is none: {0}")]
    Segment(SegError),
}

/// The row of a line of JSON: its type and its segment, by the members `type` and `segment`. Other
/// members count for nothing.
pub fn read_line(alloc: Global, line: &[u8]) -> Result<(SegType, Segment), LineError>
    ensures ok { IfOk result (λ row. IsRowLine line.now row) }
    ensures err { IfErr result (λ e. e ≢ error.NoMemory → (row : RowView) → IsRowLine line.now row → ⊥) }
    ensures why { IfErr result (λ e. IsWhyNoLine e line.now) }
{
    match Value::from_slice(alloc, line) {
        Ok(value) => row_of(alloc, &value),
        Err(error) if error.is_memory() => Err(LineError::NoMemory),
        Err(_) => Err(LineError::Json),
    }
}

/// The row of a value of JSON.
fn row_of(alloc: Global, value: &Value) -> Result<(SegType, Segment), LineError>
    ensures ok { IfOk result (λ row. IsRowOf (view value.now) row) }
    ensures err { IfErr result (λ e. e ≢ error.NoMemory → (row : RowView) → IsRowOf (view value.now) row → ⊥) }
    ensures why { IfErr result (λ e. IsWhyNoRow e (view value.now)) }
{
    let Some(word) = text_of(value, "type") else {
        return Err(LineError::Type);
    };
    let Some(kind) = type_named(word) else {
        return Err(LineError::Type);
    };
    let Some(digits) = text_of(value, "segment") else {
        return Err(LineError::Hex);
    };
    Ok((kind, segment_of(alloc, digits)?))
}

/// The text under a name, if the value has one.
fn text_of<'a>(value: &'a Value, name: &str) -> Option<&'a str>
    ensures { option_map (λ text. text.now) result ≡ text_under name.now (view value.now) }
{
    value.get(name).and_then(Value::as_str)
}

/// The type of a word.
pub fn type_named(word: &str) -> Option<SegType>
    ensures some { IfSome result (λ kind. word.now ≡ type_word kind) }
    ensures none { IfNone result ((kind : SegType) → word.now ≢ type_word kind) }
{
    match word {
        "up" => Some(SegType::Up),
        "down" => Some(SegType::Down),
        "core" => Some(SegType::Core),
        _ => None,
    }
}

/// The segment of hexadecimal digits.
fn segment_of(alloc: Global, digits: &str) -> Result<Segment, LineError>
    ensures ok { IfOk result (λ segment. AreDigitsOf digits.now segment) }
    ensures err { IfErr result (λ e. e ≢ error.NoMemory → (s : SegmentView) → AreDigitsOf digits.now s → ⊥) }
    ensures why { IfErr result (λ e. IsWhyNoSegment e digits.now) }
{
    let bytes = match hex::decode(alloc, digits) {
        Ok(bytes) => bytes,
        Err(hex::FromHexError::OutOfMemory) => return Err(LineError::NoMemory),
        Err(_) => return Err(LineError::Hex),
    };
    match read_segment(alloc, bytes.as_slice()) {
        Ok(segment) => Ok(segment),
        Err(SegError::NoMemory) => Err(LineError::NoMemory),
        Err(error) => Err(LineError::Segment(error)),
    }
}
