//! The text of figures.

ghost use Rattle.std.specs.Prelude.{◌≡◌, ◌++◌, ◌∷◌, ◌+◌, ◌<◌, [], OnOk, IfOk, codes, decimal};
ghost use Rattle.std.specs.List.{flat_map};
ghost use Rattle.am_metrics.specs.Expositions.{exposition, family_text, help_byte, help_line, label_text, labels_text, next_label};
ghost use Rattle.am_metrics.specs.Expositions.{nine_digits, number_text, sample_text, type_line, value_byte};

use crate::family::{Family, MetricLabel, Number, Sample};
use std::alloc::{AllocError, Global};

/// Adds a text.
fn add(out: &mut Vec<u8>, text: &str) -> Result<(), AllocError>
    ensures { OnOk result (out.new.items ≡ out.old.items ++ text.now) }
{
    out.extend_from_slice(text.as_bytes())?;
    Ok(())
}

/// Adds a byte of a HELP line.
fn add_help_byte(out: &mut Vec<u8>, byte: u8) -> Result<(), AllocError>
    ensures { OnOk result (out.new.items ≡ out.old.items ++ help_byte byte) }
{
    if byte == b'\\' {
        add(out, "\\\\")
    } else if byte == b'\n' {
        add(out, "\\n")
    } else {
        Ok(out.push(byte)?)
    }
}

/// Adds a byte of a label's value.
fn add_value_byte(out: &mut Vec<u8>, byte: u8) -> Result<(), AllocError>
    ensures { OnOk result (out.new.items ≡ out.old.items ++ value_byte byte) }
{
    if byte == b'"' {
        add(out, "\\\"")
    } else {
        add_help_byte(out, byte)
    }
}

/// Adds the text of a HELP line.
fn add_help(out: &mut Vec<u8>, text: &str) -> Result<(), AllocError>
    ensures { OnOk result (out.new.items ≡ out.old.items ++ flat_map help_byte text.now) }
{
    for byte in text.as_bytes() {
        add_help_byte(out, *byte)?;
    }
    Ok(())
}

/// Adds the value of a label.
fn add_value(out: &mut Vec<u8>, text: &str) -> Result<(), AllocError>
    ensures { OnOk result (out.new.items ≡ out.old.items ++ flat_map value_byte text.now) }
{
    for byte in text.as_bytes() {
        add_value_byte(out, *byte)?;
    }
    Ok(())
}

/// Adds a label.
#[tactic(auto, unfolding(crate::specs::Expositions::label_text))]
fn add_label(out: &mut Vec<u8>, label: &MetricLabel) -> Result<(), AllocError>
    ensures { OnOk result (out.new.items ≡ out.old.items ++ label_text label.now) }
{
    add(out, label.name)?;
    add(out, "=\"")?;
    add_value(out, label.value.as_str())?;
    add(out, "\"")?;
    Ok(())
}

/// Adds labels after a first one.
fn add_more_labels(out: &mut Vec<u8>, labels: &[MetricLabel]) -> Result<(), AllocError>
    ensures { OnOk result (out.new.items ≡ out.old.items ++ flat_map next_label labels.now) }
{
    for label in labels {
        add(out, ",")?;
        add_label(out, label)?;
    }
    Ok(())
}

/// Adds labels.
#[tactic(auto, unfolding(crate::specs::Expositions::labels_text))]
fn add_labels(out: &mut Vec<u8>, labels: &[MetricLabel]) -> Result<(), AllocError>
    ensures { OnOk result (out.new.items ≡ out.old.items ++ labels_text labels.now) }
{
    if let [first, others @ ..] = labels {
        add(out, "{")?;
        add_label(out, first)?;
        add_more_labels(out, others)?;
        add(out, "}")?;
    }
    Ok(())
}

/// Adds a whole number.
fn add_whole(alloc: Global, out: &mut Vec<u8>, number: u64) -> Result<(), AllocError>
    ensures { OnOk result (out.new.items ≡ out.old.items ++ decimal number) }
{
    let digits = format!(in alloc; "{number}")?;
    add(out, digits.as_str())
}

/// Adds the nine digits of billionths.
fn add_nanos(alloc: Global, out: &mut Vec<u8>, nanos: u32) -> Result<(), AllocError>
    ensures { OnOk result (out.new.items ≡ out.old.items ++ nine_digits nanos) }
{
    let number = 1_000_000_000 + u64::from(nanos);
    let digits = format!(in alloc; "{number}")?;
    let Some((_, nine)) = digits.as_bytes().split_first() else {
        return Err(AllocError);
    };
    out.extend_from_slice(nine)?;
    Ok(())
}

/// Adds a number.
#[tactic(auto, unfolding(crate::specs::Expositions::number_text))]
fn add_number(alloc: Global, out: &mut Vec<u8>, number: Number) -> Result<(), AllocError>
    ensures { OnOk result (out.new.items ≡ out.old.items ++ number_text number) }
{
    match number {
        Number::Whole(whole) => add_whole(alloc, out, whole),
        Number::Nanos { whole, nanos } => {
            add_whole(alloc, out, whole)?;
            add(out, ".")?;
            add_nanos(alloc, out, nanos)
        }
    }
}

/// Adds the line of a figure.
#[tactic(auto, unfolding(crate::specs::Expositions::sample_text))]
fn add_sample(
    alloc: Global,
    out: &mut Vec<u8>,
    name: &str,
    sample: &Sample,
) -> Result<(), AllocError>
    ensures { OnOk result (out.new.items ≡ out.old.items ++ sample_text name.now sample.now) }
{
    add(out, name)?;
    add(out, sample.suffix)?;
    add_labels(out, sample.labels.as_slice())?;
    add(out, " ")?;
    add_number(alloc, out, sample.number)?;
    add(out, "\n")?;
    Ok(())
}

/// Adds the lines of figures with one name.
fn add_samples(
    alloc: Global,
    out: &mut Vec<u8>,
    name: &str,
    samples: &[Sample],
) -> Result<(), AllocError>
    ensures { OnOk result (out.new.items ≡ out.old.items ++ flat_map (sample_text name.now) samples.now) }
{
    for sample in samples {
        add_sample(alloc, out, name, sample)?;
    }
    Ok(())
}

/// Adds the line that describes the figures of a family.
#[tactic(auto, unfolding(crate::specs::Expositions::help_line))]
fn add_help_line(out: &mut Vec<u8>, family: &Family) -> Result<(), AllocError>
    ensures { OnOk result (out.new.items ≡ out.old.items ++ help_line family.now) }
{
    add(out, "# HELP ")?;
    add(out, family.name)?;
    add(out, " ")?;
    add_help(out, family.help)?;
    add(out, "\n")?;
    Ok(())
}

/// Adds the line that names the kind of the figures.
#[tactic(auto, unfolding(crate::specs::Expositions::type_line))]
fn add_type_line(out: &mut Vec<u8>, family: &Family) -> Result<(), AllocError>
    ensures { OnOk result (out.new.items ≡ out.old.items ++ type_line family.now) }
{
    add(out, "# TYPE ")?;
    add(out, family.name)?;
    add(out, " ")?;
    add(out, family.kind.text())?;
    add(out, "\n")?;
    Ok(())
}

/// Adds a family.
#[tactic(auto, unfolding(crate::specs::Expositions::family_text))]
fn add_family(alloc: Global, out: &mut Vec<u8>, family: &Family) -> Result<(), AllocError>
    ensures { OnOk result (out.new.items ≡ out.old.items ++ family_text family.now) }
{
    add_help_line(out, family)?;
    add_type_line(out, family)?;
    add_samples(alloc, out, family.name, family.samples.as_slice())?;
    Ok(())
}

/// Adds families.
fn add_families(alloc: Global, out: &mut Vec<u8>, families: &[Family]) -> Result<(), AllocError>
    ensures { OnOk result (out.new.items ≡ out.old.items ++ exposition families.now) }
{
    for family in families {
        add_family(alloc, out, family)?;
    }
    Ok(())
}

/// Returns the text of families in Prometheus' text format 0.0.4.
///
/// # Errors
///
/// Returns [`AllocError`] if memory runs out.
pub fn write_families(alloc: Global, families: &[Family]) -> Result<Vec<u8>, AllocError>
    // PROMISE: Metrics are in Prometheus' text format 0.0.4.
    ensures { IfOk result (λ text. text.items ≡ exposition families.now) }
{
    let mut text = Vec::new(alloc);
    add_families(alloc, &mut text, families)?;
    Ok(text)
}
