//! Labels of alerts.

ghost use Rattle.std.specs.Prelude.{◌≡◌, [], IfOk};
ghost use Rattle.am_matcher.specs.Labels.{value_in, AreValuesOf};

use am_wire::Text;
use std::alloc::{AllocError, Global};
use std::collections::BTreeMap;
use std::marker::Model;

/// A label of an alert: a name and a value.
#[derive(Drop)]
pub struct Label {
    pub name: Text,
    pub value: Text,
}

/// The labels of an alert, as a map from names to values.
///
/// Contracts see the list of the labels. If several labels have one name, the last one counts. An absent label has the
/// empty text.
#[derive(Drop)]
pub struct Labels {
    labels: Vec<Label>,
}

impl Model for Labels {
    ghost use Rattle.std.specs.Prelude.{List};
    ghost use Rattle.am_matcher.specs.declared.labels.Label.{Label};

    ghost Value = { List Label };

    ghost view = { λ l. l.labels.items };
}

impl Labels {
    /// Returns these labels. Nothing is allocated.
    pub fn new(labels: Vec<Label>) -> Labels
        ensures { result ≡ labels.items }
    {
        Labels { labels }
    }

    /// Returns the labels in their order.
    pub fn as_slice(&self) -> &[Label]
        ensures { result.now ≡ self.now }
    {
        self.labels.as_slice()
    }

    /// Returns the vector of the labels. Nothing is allocated.
    pub fn into_vec(self) -> Vec<Label>
        ensures { result.items ≡ self }
    {
        self.labels
    }
}

/// The values of labels, which are found by their names without a walk through all labels. Contracts see the list of the
/// labels.
#[derive(Drop)]
pub struct NamedLabels<'a> {
    labels: &'a [Label],
    values: BTreeMap<&'a str, &'a str>,
}

impl<'a> Model for NamedLabels<'a> {
    ghost use Rattle.std.specs.Prelude.{List};
    ghost use Rattle.am_matcher.specs.declared.labels.Label.{Label};
    ghost use Rattle.am_matcher.specs.Labels.{AreValuesOf};

    ghost Value = { List Label };

    ghost view = { λ n. n.labels.now };

    ghost invariant = { λ n. AreValuesOf n.labels.now n.values };
}

/// Returns the values of labels by their names. If several labels have one name, the last one counts.
fn values_of<'a>(
    alloc: Global,
    labels: &'a [Label],
) -> Result<BTreeMap<&'a str, &'a str>, AllocError>
    ensures { IfOk result (AreValuesOf labels.now) }
{
    let mut values = BTreeMap::new(alloc);
    for label in labels {
        values.insert(label.name.as_str(), label.value.as_str())?;
    }
    Ok(values)
}

impl<'a> NamedLabels<'a> {
    /// Returns no labels. Nothing is allocated.
    pub fn none(alloc: Global) -> NamedLabels<'a>
        ensures { result ≡ [] }
    {
        NamedLabels {
            labels: &[],
            values: BTreeMap::new(alloc),
        }
    }

    /// Sorts labels by their names.
    pub fn new(alloc: Global, labels: &'a [Label]) -> Result<NamedLabels<'a>, AllocError>
        ensures { IfOk result (λ named. named ≡ labels.now) }
    {
        let values = values_of(alloc, labels)?;
        Ok(NamedLabels { labels, values })
    }

    /// Returns the value of the label with this name, or the empty text.
    pub fn value(&self, name: &str) -> &str
        ensures { result.now ≡ value_in self.now name.now }
    {
        match self.values.get(name) {
            Some(value) => value,
            None => "",
        }
    }
}
