//! The facts that are collected of a schedule while it is played.

use crate::mark::{LineMark, LineVerb};
use am_cluster::Flight;
use am_gossip::FrameKind;
use am_instance::Place;
use std::alloc::{AllocError, Global};

/// The fate of a frame.
#[derive(Clone, Copy)]
pub enum Fate {
    /// The frame was never delivered, and is in flight.
    Flying,
    /// The frame was delivered, and stays in flight.
    Delivered,
    /// The frame was lost by the step of this number, counted from 0.
    Lost(usize),
}

/// A frame that was sent.
#[derive(Clone, Copy)]
pub struct SentFrame {
    /// The number of the frame, counted from 1, among all that were ever sent.
    pub number: u64,
    /// The number, counted from 0, of the step that sent it.
    pub column: usize,
    pub sender: Place,
    pub addressee: Place,
    pub kind: FrameKind,
    pub fate: Fate,
}

/// A schedule as it was played: what each line did, and all frames that were sent, by their numbers.
#[derive(Drop)]
pub struct Scene {
    pub marks: Vec<LineMark>,
    pub sendings: Vec<SentFrame>,
}

impl Scene {
    /// Returns a scene without marks and sendings. Takes no memory.
    pub fn new(alloc: Global) -> Scene {
        Scene {
            marks: Vec::new(alloc),
            sendings: Vec::new(alloc),
        }
    }

    /// Returns the frame that a line delivers or loses, if it is in flight.
    pub fn frame_of(&self, mark: &LineMark) -> Option<&SentFrame> {
        self.sendings.get(mark.flying()?)
    }

    /// Returns the line of the step of a number, counted from 0.
    pub fn line_of(&self, column: usize) -> u64 {
        match self.marks.get(column) {
            Some(mark) => mark.line,
            None => 0,
        }
    }

    /// Appends what a line did, and those of the frames in flight that it sent.
    ///
    /// # Errors
    ///
    /// [`AllocError`] if memory runs out.
    pub fn add(&mut self, mark: LineMark, flights: &[Flight]) -> Result<(), AllocError> {
        let column = self.marks.len();
        if let Some((index, fate)) = turn_of(&mark, column) {
            self.turn(index, fate);
        }
        self.marks.push(mark)?;
        self.add_sendings(column, flights)
    }

    /// Appends those of the frames in flight that the step of this number sent.
    fn add_sendings(&mut self, column: usize, flights: &[Flight]) -> Result<(), AllocError> {
        for flight in flights {
            if flight.number > self.sendings.len() as u64 {
                self.sendings.push(sent_by(column, flight))?;
            }
        }
        Ok(())
    }

    /// Notes the fate of a frame.
    fn turn(&mut self, index: usize, fate: Fate) {
        if let Some(sending) = self.sendings.get_mut(index) {
            sending.fate = fate;
        }
    }
}

/// Returns the fate of the frame that the line of this number delivers or loses, and the frame's index.
fn turn_of(mark: &LineMark, column: usize) -> Option<(usize, Fate)> {
    let fate = match mark.verb {
        LineVerb::Lose => Fate::Lost(column),
        _ => Fate::Delivered,
    };
    Some((mark.flying()?, fate))
}

/// Returns a frame that the step of this number sent.
fn sent_by(column: usize, flight: &Flight) -> SentFrame {
    SentFrame {
        number: flight.number,
        column,
        sender: flight.sender,
        addressee: flight.addressee,
        kind: flight.frame.kind(),
        fate: Fate::Flying,
    }
}
