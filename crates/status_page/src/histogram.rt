//! How long something took, as lines of a page.

ghost use Rattle.std.specs.Prelude.{◌≡◌, IfOk, string_bytes};
ghost use Rattle.status_page.specs.Histogram.{bucket_label, bucket_name, bucket_line, bucket_lines, histogram_sums, histogram};

use crate::lines::{Kind, Value, heading, labelled, sample, seconds};
use std::alloc::{AllocError, Global};
use store_loops::Bucket;

/// The lines of a histogram, by its buckets, the number of all, and the time that they took, in
/// microseconds.
#[tactic(auto, unfolding(crate::specs::Histogram::histogram))]
pub(crate) fn histogram(
    alloc: Global,
    name: &str,
    help: &str,
    buckets: &[Bucket],
    count: u64,
    microseconds: u64,
) -> Result<String, AllocError>
    ensures { IfOk result (λ text. string_bytes text ≡ histogram name.now help.now buckets.now count microseconds) }
{
    let buckets = bucket_lines(alloc, name, help, buckets)?;
    let sums = histogram_sums(alloc, name, count, microseconds)?;
    format!(in alloc; "{buckets}{sums}")
}

/// The lines of the metric's type and of its buckets, but for the last one.
#[tactic(auto, unfolding(crate::specs::Histogram::bucket_lines))]
fn bucket_lines(
    alloc: Global,
    name: &str,
    help: &str,
    buckets: &[Bucket],
) -> Result<String, AllocError>
    ensures { IfOk result (λ text. string_bytes text ≡ bucket_lines name.now help.now buckets.now) }
{
    let mut text = heading(alloc, name, Kind::Histogram, help)?;
    for bucket in buckets {
        let line = bucket_line(alloc, name, *bucket)?;
        text.push_str(line.as_str())?;
    }
    Ok(text)
}

/// The line of a bucket.
#[tactic(auto, unfolding(crate::specs::Histogram::bucket_line))]
fn bucket_line(alloc: Global, name: &str, bucket: Bucket) -> Result<String, AllocError>
    ensures { IfOk result (λ line. string_bytes line ≡ bucket_line name.now bucket) }
{
    let buckets = bucket_name(alloc, name)?;
    let label = bucket_label(alloc, bucket.microseconds)?;
    labelled(
        alloc,
        buckets.as_str(),
        label.as_str(),
        Value::Number(bucket.count),
    )
}

/// The name of a histogram's buckets.
#[tactic(auto, unfolding(crate::specs::Histogram::bucket_name))]
fn bucket_name(alloc: Global, name: &str) -> Result<String, AllocError>
    ensures { IfOk result (λ buckets. string_bytes buckets ≡ bucket_name name.now) }
{
    format!(in alloc; "{name}_bucket")
}

/// The label of a bucket, with the most seconds of what the bucket counts.
#[tactic(auto, unfolding(crate::specs::Histogram::bucket_label))]
fn bucket_label(alloc: Global, microseconds: u64) -> Result<String, AllocError>
    ensures { IfOk result (λ label. string_bytes label ≡ bucket_label microseconds) }
{
    let most = seconds(alloc, microseconds)?;
    format!(in alloc; "le=\"{most}\"")
}

/// The lines of the number of all, and of the time that they took.
#[tactic(auto, unfolding(crate::specs::Histogram::histogram_sums))]
fn histogram_sums(
    alloc: Global,
    name: &str,
    count: u64,
    microseconds: u64,
) -> Result<String, AllocError>
    ensures { IfOk result (λ text. string_bytes text ≡ histogram_sums name.now count microseconds) }
{
    let buckets = bucket_name(alloc, name)?;
    let all = labelled(alloc, buckets.as_str(), "le=\"+Inf\"", Value::Number(count))?;
    let sum_name = format!(in alloc; "{name}_sum")?;
    let sum = sample(alloc, sum_name.as_str(), Value::Time(microseconds))?;
    let count_name = format!(in alloc; "{name}_count")?;
    let counted = sample(alloc, count_name.as_str(), Value::Number(count))?;
    format!(in alloc; "{all}{sum}{counted}")
}
