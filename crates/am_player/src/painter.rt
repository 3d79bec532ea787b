//! The observer that draws a schedule while it is played.

use crate::again::repeated_lines;
use crate::drawing::append_picture;
use crate::mark::mark_of;
use crate::scene::Scene;
use crate::sheet::Sheet;
use crate::times::first_of_clock;
use am_cluster::Cluster;
use am_instance::Place;
use am_replay::{LineAnswer, Observer};
use am_schedule::{Line, Schedule};
use am_wire::Text;
use std::alloc::{AllocError, Global};
use std::str;

/// An observer that draws a schedule at the end of its playing. It passes the progress of the playing on to another one.
#[derive(Drop)]
pub struct Painter<'a, O> {
    alloc: Global,
    schedule: &'a Schedule,
    text: &'a [u8],
    other: &'a mut O,
    scene: Scene,
    picture: String,
}

impl<'a, O: Observer> Painter<'a, O> {
    /// Returns a painter for the schedule of a text, before it is played.
    pub fn new(
        alloc: Global,
        schedule: &'a Schedule,
        text: &'a [u8],
        other: &'a mut O,
    ) -> Painter<'a, O> {
        Painter {
            alloc,
            schedule,
            text,
            other,
            scene: Scene::new(alloc),
            picture: String::new(alloc),
        }
    }

    /// Returns the picture, which is empty before the end.
    pub fn into_picture(self) -> String {
        let Painter { picture, .. } = self;
        picture
    }
}

impl<O: Observer> Observer for Painter<'_, O> {
    fn is_at(&mut self, lines: usize, all: usize) {
        self.other.is_at(lines, all);
    }

    fn saw(
        &mut self,
        cluster: &Cluster,
        line: &Line,
        number: u64,
        answer: LineAnswer,
    ) -> Result<(), AllocError> {
        let mark = mark_of(cluster, line, number, answer);
        self.scene.add(mark, cluster.in_flight())
    }

    fn saw_end(&mut self, cluster: &Cluster) -> Result<(), AllocError> {
        let names = names_of(cluster);
        let faults = faults_of(self.alloc, cluster, names.len())?;
        let repeated = repeated_lines(self.alloc, self.schedule, &self.scene.marks)?;
        let lines = lines_of(self.alloc, self.text)?;
        let sheet = Sheet {
            alloc: self.alloc,
            scene: &self.scene,
            names,
            faults: &faults,
            repeated: &repeated,
            lines: &lines,
            first: first_of_clock(&self.scene),
        };
        append_picture(&sheet, cluster, &mut self.picture)
    }
}

/// Returns the names of the members of a cluster, by their places.
fn names_of(cluster: &Cluster) -> &[Text] {
    match cluster.instance(0) {
        Some(instance) => instance.config().members(),
        None => &[],
    }
}

/// Returns the line of the first fault of each member's calm.
fn faults_of(
    alloc: Global,
    cluster: &Cluster,
    members: usize,
) -> Result<Vec<Option<u64>>, AllocError> {
    let mut faults = Vec::with_capacity(alloc, members)?;
    for place in 0..members {
        faults.push(cluster.calm(place as Place).first_fault)?;
    }
    Ok(faults)
}

/// Returns the lines of a text if it is UTF-8, and none otherwise.
fn lines_of(alloc: Global, text: &[u8]) -> Result<Vec<&str>, AllocError> {
    match str::from_utf8(text) {
        Ok(text) => text.split('\n').collect(alloc),
        Err(_) => Ok(Vec::new(alloc)),
    }
}
