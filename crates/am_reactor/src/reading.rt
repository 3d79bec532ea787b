//! The bytes that come over a connection.

ghost use Rattle.std.specs.Prelude.{◌≡◌, length, take};
ghost use Rattle.am_reactor.specs.Deeds.{Did};
ghost use Rattle.am_reactor.specs.Reading.{EndsWith, FitsPiece, Hears, brought_by, told_of};
ghost use Rattle.am_reactor.specs.Sending.{counted};
ghost use Rattle.am_reactor.specs.Streams.{Receives};

use crate::connection::{Connection, Readiness, count_on};
use crate::fault::Failure;
use crate::service::Service;
use crate::stream::Stream;
use std::io::ErrorKind;

/// The number of pieces that are read of one connection in a turn.
pub const PIECES: u32 = 16;

/// The result of one read.
#[derive(Clone, Copy)]
pub enum ReadResult {
    /// This number of bytes came, at least one.
    Bytes(usize),
    /// The input has ended.
    End,
    /// Nothing has come yet; an event tells of more.
    Nothing,
    /// A signal came in between.
    Interrupted,
    Failed(ErrorKind),
}

/// Reads once.
pub fn read_once<C: Stream>(stream: &mut C, piece: &mut [u8]) -> ReadResult
    ensures fits { FitsPiece piece.new result }
    ensures came { Receives (C.arrived stream.old) (C.arrived stream.new) (take (brought_by result) piece.new) }
    ensures ended { EndsWith (C.arrived stream.new) piece.new result }
    ensures gone { C.gone stream.new ≡ C.gone stream.old }
{
    match stream.read(piece) {
        Ok(0) => ReadResult::End,
        Ok(count) => ReadResult::Bytes(count),
        Err(error) => match error.kind() {
            ErrorKind::WouldBlock => ReadResult::Nothing,
            ErrorKind::Interrupted => ReadResult::Interrupted,
            kind => ReadResult::Failed(kind),
        },
    }
}

/// Reads once, and tells the service what came. Counts the bytes.
fn read_piece<S: Service, C: Stream>(
    session: &mut S::Session,
    service: &mut S,
    stream: &mut C,
    piece: &mut [u8],
    read: &mut u64,
) -> ReadResult
    requires { ¬ S.over session.old }
    ensures came { Receives (C.arrived stream.old) (C.arrived stream.new) (take (brought_by result) piece.new) }
    ensures ended { EndsWith (C.arrived stream.new) piece.new result }
    ensures gone { C.gone stream.new ≡ C.gone stream.old }
    ensures did { Did S.does service.old session.old (told_of piece.new result) service.new session.new }
    ensures count { read.new ≡ counted read.old (brought_by result) }
    ensures fits { FitsPiece piece.new result }
{
    let brought = read_once(stream, piece);
    match brought {
        ReadResult::Bytes(count) => {
            count_on(read, count);
            service.feed(session, &piece[..count]);
        }
        ReadResult::End => service.end(session),
        ReadResult::Nothing | ReadResult::Interrupted | ReadResult::Failed(_) => {}
    }
    brought
}

/// Reads what came, and tells the service, until nothing more is there, the session is over or its pieces of this turn are
/// read.
///
/// # Errors
///
/// The error of a read that failed.
pub fn read_available<S: Service, C: Stream>(
    connection: &mut Connection<S::Session, C>,
    service: &mut S,
    piece: &mut [u8],
) -> Result<Readiness, Failure>
    // PROMISE: The bytes of a connection reach its own session, in order, each once.
    ensures heard { Hears S.does C.arrived C.gone (length piece.old) service.old connection.old service.new connection.new }
{
    for _ in 0..PIECES {
        if connection.ended || service.is_over(&connection.session) {
            return Ok(Readiness::Idle);
        }
        let brought = read_piece(
            &mut connection.session,
            service,
            &mut connection.stream,
            piece,
            &mut connection.read,
        );
        match brought {
            ReadResult::Bytes(_) | ReadResult::Interrupted => {}
            ReadResult::End => connection.ended = true,
            ReadResult::Nothing => return Ok(Readiness::Idle),
            ReadResult::Failed(kind) => return Err(Failure::Read(kind)),
        }
    }
    Ok(Readiness::Busy)
}
