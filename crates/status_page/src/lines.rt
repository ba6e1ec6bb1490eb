//! The lines of a page.

ghost use Rattle.std.specs.Prelude.{◌≡◌, IfOk, string_bytes};
ghost use Rattle.status_page.specs.Lines.{kind_text, help_line, type_line, heading, six_digits, seconds, value_text, sample, labelled};

use std::alloc::{AllocError, Global};
use store_loops::SECOND;

/// The type of a metric.
#[derive(Clone, Copy)]
pub(crate) enum Kind {
    /// A number that grows and shrinks.
    Gauge,
    /// A number that only grows.
    Counter,
    /// Numbers by the time that something took.
    Histogram,
}

/// The number of a line.
#[derive(Clone, Copy)]
pub(crate) enum Value {
    /// A number.
    Number(u64),
    /// A time in microseconds, which is written as seconds.
    Time(u64),
    /// Such a time where this is true, and 0 elsewhere.
    TimeIf(bool, u64),
    /// 1 for true, and 0 for false.
    Truth(bool),
}

/// The word for a type.
fn kind_text(kind: Kind) -> &'static str
    ensures { result.now ≡ kind_text kind }
{
    match kind {
        Kind::Gauge => "gauge",
        Kind::Counter => "counter",
        Kind::Histogram => "histogram",
    }
}

/// The line with what a metric says.
#[tactic(auto, unfolding(crate::specs::Lines::help_line))]
fn help_line(alloc: Global, name: &str, help: &str) -> Result<String, AllocError>
    ensures { IfOk result (λ line. string_bytes line ≡ help_line name.now help.now) }
{
    format!(in alloc; "# HELP {name} {help}\n")
}

/// The line with the type of a metric.
#[tactic(auto, unfolding(crate::specs::Lines::type_line))]
fn type_line(alloc: Global, name: &str, kind: &str) -> Result<String, AllocError>
    ensures { IfOk result (λ line. string_bytes line ≡ type_line name.now kind.now) }
{
    format!(in alloc; "# TYPE {name} {kind}\n")
}

/// The two lines before those of a metric's numbers.
#[tactic(auto, unfolding(crate::specs::Lines::heading))]
pub(crate) fn heading(
    alloc: Global,
    name: &str,
    kind: Kind,
    help: &str,
) -> Result<String, AllocError>
    ensures { IfOk result (λ lines. string_bytes lines ≡ heading name.now kind help.now) }
{
    let help = help_line(alloc, name, help)?;
    let kind = type_line(alloc, name, kind_text(kind))?;
    format!(in alloc; "{help}{kind}")
}

/// The six digits of a number below a million.
#[tactic(auto, unfolding(crate::specs::Lines::six_digits))]
fn six_digits(alloc: Global, number: u64) -> Result<String, AllocError>
    ensures { IfOk result (λ text. string_bytes text ≡ six_digits number) }
{
    let (a, b, c) = (number / 100_000, number / 10_000 % 10, number / 1_000 % 10);
    let (d, e, f) = (number / 100 % 10, number / 10 % 10, number % 10);
    format!(in alloc; "{a}{b}{c}{d}{e}{f}")
}

/// A number of microseconds as seconds, with six digits after the point.
#[tactic(auto, unfolding(crate::specs::Lines::seconds))]
pub(crate) fn seconds(alloc: Global, microseconds: u64) -> Result<String, AllocError>
    ensures { IfOk result (λ text. string_bytes text ≡ seconds microseconds) }
{
    let whole = microseconds / SECOND;
    let digits = six_digits(alloc, microseconds % SECOND)?;
    format!(in alloc; "{whole}.{digits}")
}

/// The digits of a line's number.
fn value_text(alloc: Global, value: Value) -> Result<String, AllocError>
    ensures { IfOk result (λ text. string_bytes text ≡ value_text value) }
{
    match value {
        Value::Number(number) => format!(in alloc; "{number}"),
        Value::Time(microseconds) | Value::TimeIf(true, microseconds) => {
            seconds(alloc, microseconds)
        }
        Value::TimeIf(false, _) => seconds(alloc, 0),
        Value::Truth(true) => format!(in alloc; "1"),
        Value::Truth(false) => format!(in alloc; "0"),
    }
}

/// The line of a metric with a number.
#[tactic(auto, unfolding(crate::specs::Lines::sample))]
pub(crate) fn sample(alloc: Global, name: &str, value: Value) -> Result<String, AllocError>
    ensures { IfOk result (λ line. string_bytes line ≡ sample name.now value) }
{
    let value = value_text(alloc, value)?;
    format!(in alloc; "{name} {value}\n")
}

/// The line of a metric with a number under a label.
#[tactic(auto, unfolding(crate::specs::Lines::labelled))]
pub(crate) fn labelled(
    alloc: Global,
    name: &str,
    label: &str,
    value: Value,
) -> Result<String, AllocError>
    ensures { IfOk result (λ line. string_bytes line ≡ labelled name.now label.now value) }
{
    let value = value_text(alloc, value)?;
    format!(in alloc; "{name}{{{label}}} {value}\n")
}
