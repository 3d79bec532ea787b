//! The labels of an alert.

ghost use Rattle.std.specs.Prelude.{◌≡◌, IfOk, IfSome};
ghost use Rattle.serde_json.specs.View.{view, members_view};
ghost use Rattle.am_api_decisions.specs.Messages.{labels_of, labels_in};
ghost use Rattle.am_api_decisions.specs.Orders.{AreInOrder};

use am_matcher::{Label, Labels};
use am_wire::Text;
use serde_json::{Map, Value};
use std::alloc::{AllocError, Global};

/// Returns a label that owns its name and value.
fn label_of(alloc: Global, name: &str, value: &str) -> Result<Label, AllocError>
    ensures { IfOk result (λ label. label ≡ record { name = name.now; value = value.now }) }
{
    let name = Text::copied(alloc, name)?;
    let value = Text::copied(alloc, value)?;
    Ok(Label { name, value })
}

/// Returns the labels that the members are.
fn labels_of(alloc: Global, members: &Map<String, Value>) -> Result<Option<Labels>, AllocError>
    ensures value { IfOk result (λ labels. labels ≡ labels_of (members_view members.now.entries)) }
    ensures in_order { IfOk result (λ labels. IfSome labels AreInOrder) }
{
    let mut labels = Vec::with_capacity(alloc, members.len())?;
    for (name, value) in members.iter() {
        let Some(text) = value.as_str() else {
            return Ok(None);
        };
        let label = label_of(alloc, name.as_str(), text)?;
        labels.push(label)?;
    }
    Ok(Some(Labels::new(labels)))
}

/// Returns the labels of an alert, in the order of their names, or `None` if they are missing or of another kind.
pub fn read_labels(alloc: Global, alert: &Value) -> Result<Option<Labels>, AllocError>
    ensures value { IfOk result (λ labels. labels ≡ labels_in (view alert.now)) }
    ensures in_order { IfOk result (λ labels. IfSome labels AreInOrder) }
{
    match alert.get("labels").and_then(Value::as_object) {
        Some(members) => labels_of(alloc, members),
        None => Ok(None),
    }
}
