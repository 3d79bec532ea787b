//! Lists of labels and identifiers, which give back what they were made of.

use am_matcher::{Ids, Label, Labels};
use am_wire::Text;
use std::alloc::{AllocError, Global};

fn labels(alloc: Global) -> Result<Labels, AllocError> {
    let mut labels = Vec::new(alloc);
    let name = Text::copied(alloc, "job")?;
    labels.push(Label {
        name,
        value: Text::copied(alloc, "x")?,
    })?;
    Ok(Labels::new(labels))
}

fn ids(alloc: Global) -> Result<Ids, AllocError> {
    let mut ids = Vec::new(alloc);
    ids.push(Text::copied(alloc, "p")?)?;
    Ok(Ids::new(ids))
}

/// Returns whether a list of one label and one of one identifier are as long when they are given back.
pub fn are_given_back(alloc: Global) -> Option<bool> {
    let labels = labels(alloc).ok()?.into_vec();
    let ids = ids(alloc).ok()?.into_vec();
    Some(labels.len() == 1 && ids.len() == 1)
}
