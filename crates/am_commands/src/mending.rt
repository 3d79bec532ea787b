//! The versions that running replicas lack of those that they are to hold, and the ones that they refuse.

ghost use Rattle.std.specs.Prelude.{◌≡◌, ◌∷◌, ◌++◌, [], List, OnOk, IfOk, ℕ, map, flat_map};
ghost use Rattle.am_wire.specs.Fields.{rows_of};
ghost use Rattle.am_wire.specs.Inputs.{sound};
ghost use Rattle.am_commands.specs.Sending.{is_sent, IsSending, IsSendingOf};

use crate::fault::SourceFault;
use crate::host::CommandRuntime;
use crate::replica::{exchange, key_of};
use am_alertmanager::{Candidate, Refused, is_lacked, lacked, why_refused};
use am_diagnostics::Fault;
use am_matcher::Hazard;
use am_memberlist::states_encoding;
use am_merge::Held;
use am_options::PullJob;
use am_report::{LineFormat, ListedWord, ReportLine};
use am_snapshot::SnapshotError;
use am_version_order::{Moment, Version};
use am_wire::writing::append_delimited;
use am_wire::{Message, RowFault, Rows, Unknown};
use std::alloc::{AllocError, Global};

/// The versions that are sent, and their rows as they were read.
#[derive(Drop)]
pub struct SentVersions<V: Version> {
    rows: Vec<u8>,
    pub versions: Held<V>,
}

impl<V: Version> SentVersions<V> {
    /// Sends the rows to a replica, in one exchange, if there are any.
    ///
    /// # Errors
    ///
    /// The reason that the replica didn't answer.
    pub fn send<R: CommandRuntime>(&self, rt: &R, to: &PullJob<'_>) -> Result<(), SourceFault> {
        if self.rows.is_empty() {
            return Ok(());
        }
        let Ok(states) = states_encoding(rt.alloc(), key_of(to.state), &self.rows) else {
            return Err(SourceFault::Own(Fault::Memory(AllocError)));
        };
        exchange(rt, to, &states)?;
        Ok(())
    }
}

/// The versions that replicas are to hold, and the rows in which they stand.
#[derive(Drop)]
pub struct Mending<V: Version> {
    pub rows: Vec<Vec<u8>>,
    pub all: Held<V>,
    pub moment: Moment,
}

/// The replica that a line is about: its name, if there are several.
#[derive(Clone, Copy)]
pub struct Addressee<'n> {
    pub name: Option<&'n str>,
}

impl<V: Candidate + Message + ReportLine> Mending<V> {
    /// Tells whether this is the version that counts of its key, the replica lacks it, and it isn't later than the moment.
    #[tactic(auto, unfolding(am_version_order::specs::Versions::is_below))]
    fn is_sent(&self, held: &Held<V>, version: &V) -> bool
        // PROMISE: A replica is sent only what counts, what it lacks, and nothing of the future.
        ensures sent { result ≡ is_sent V.seen V.Key.cmp self.now.all self.now.moment held.now version.now }
    {
        let counts = match self.all.get(version.key()) {
            Some(best) => best.compare(version).is_eq(),
            None => false,
        };
        counts && version.updated() <= self.moment && is_lacked(held, version)
    }

    /// Returns what is sent to a replica that holds these, each key once.
    ///
    /// # Errors
    ///
    /// A row at fault, and want of memory.
    pub fn to_send(&self, alloc: Global, held: &Held<V>) -> Result<SentVersions<V>, SnapshotError>
        // PROMISE: `push` and `mend` send messages of the rows that were read, each of a version that is to be sent and has no hazard,
        // and leave out no key of these.
        ensures { IfOk result (λ sent. IsSendingOf V.seen V.Key.cmp (V.reads Unknown.Keep) V.is_hazard self.now.all self.now.moment held.now
            (flat_map (λ row. rows_of row.items) self.now.rows.items) sent.rows.items sent.versions) }
    {
        let mut sent = SentVersions {
            rows: Vec::new(alloc),
            versions: Held::new(alloc),
        };
        for row in &self.rows {
            self.add_row(alloc, held, &mut sent, row)?;
        }
        Ok(sent)
    }

    /// Adds of a row what is to be sent.
    fn add_row(
        &self,
        alloc: Global,
        held: &Held<V>,
        sent: &mut SentVersions<V>,
        row: &[u8],
    ) -> Result<(), SnapshotError>
        ensures { OnOk result ((before : List (List ℕ))
            → IsSending V.seen V.Key.cmp (V.reads Unknown.Keep) V.is_hazard self.now.all self.now.moment held.now before sent.old.rows.items sent.old.versions
            → (messages : List (List ℕ)) × (rows_of row.now ≡ map sound messages)
            × IsSending V.seen V.Key.cmp (V.reads Unknown.Keep) V.is_hazard self.now.all self.now.moment held.now (before ++ messages) sent.new.rows.items sent.new.versions) }
    {
        for text in Rows::new(row) {
            let text = match text {
                Ok(text) => text,
                Err(error) => return Err(SnapshotError::from(RowFault::from(error))),
            };
            self.add(alloc, held, sent, text)?;
        }
        Ok(())
    }

    /// Adds a message to what is sent, if it is to be and its version has no hazard.
    fn add(
        &self,
        alloc: Global,
        held: &Held<V>,
        sent: &mut SentVersions<V>,
        text: &[u8],
    ) -> Result<(), SnapshotError>
        ensures { OnOk result ((before : List (List ℕ))
            → IsSending V.seen V.Key.cmp (V.reads Unknown.Keep) V.is_hazard self.now.all self.now.moment held.now before sent.old.rows.items sent.old.versions
            → IsSending V.seen V.Key.cmp (V.reads Unknown.Keep) V.is_hazard self.now.all self.now.moment held.now (before ++ text.now ∷ []) sent.new.rows.items sent.new.versions) }
    {
        let version = match V::decode_at(alloc, Unknown::Keep, text, 0) {
            Ok(version) => version,
            Err(error) => return Err(SnapshotError::from(RowFault::from(error))),
        };
        if !self.is_sent(held, &version) || version.hazard(alloc)?.is_some() {
            return Ok(());
        }
        if !sent.versions.insert_new(version)? {
            return Ok(());
        }
        append_delimited(&mut sent.rows, text)?;
        Ok(())
    }

    /// Appends a line for each version that is sent to a replica, and for each that isn't since it is later than the moment or
    /// has a hazard. Returns whether there is one of these.
    ///
    /// # Errors
    ///
    /// Want of memory.
    pub fn append_sent(
        &self,
        alloc: Global,
        out: &mut String,
        to: Addressee<'_>,
        held: &Held<V>,
        sent: &SentVersions<V>,
    ) -> Result<bool, AllocError> {
        for version in sent.versions.iter() {
            append_line(out, version, RelationWords::of("send"), to, self.moment)?;
        }
        let mut holds_back = false;
        for version in lacked(alloc, held, &self.all)? {
            if let Some(said) = self.why_held_back(alloc, version)? {
                holds_back = true;
                append_line(out, version, said, to, self.moment)?;
            }
        }
        Ok(holds_back)
    }

    /// Returns what the line of a version that the replica lacks and isn't sent says: that it is later than the moment, or that
    /// it is refused for its hazard.
    fn why_held_back(
        &self,
        alloc: Global,
        version: &V,
    ) -> Result<Option<RelationWords>, AllocError> {
        if self.moment < version.updated() {
            return Ok(Some(RelationWords::of("later")));
        }
        Ok(match version.hazard(alloc)? {
            Some(Hazard::Pattern) => Some(RelationWords::refused(" by pattern")),
            Some(Hazard::Matcher) => Some(RelationWords::refused(" by matcher")),
            None => None,
        })
    }

    /// Appends a line for each version that a replica lacks though it was sent, with the cause. Returns whether there is one.
    ///
    /// # Errors
    ///
    /// Want of memory.
    pub fn append_refused(
        &self,
        alloc: Global,
        out: &mut String,
        to: Addressee<'_>,
        held: &Held<V>,
    ) -> Result<bool, AllocError> {
        let mut found = false;
        for version in lacked(alloc, held, &self.all)? {
            if self.why_held_back(alloc, version)?.is_none() {
                let why = why_refused(held.get(version.key()), version, self.moment);
                append_line(
                    out,
                    version,
                    RelationWords::refused(cause(why)),
                    to,
                    self.moment,
                )?;
                found = true;
            }
        }
        Ok(found)
    }
}

/// The word for a version in its line, and the last words of the line.
#[derive(Clone, Copy)]
struct RelationWords {
    relation: &'static str,
    cause: &'static str,
}

impl RelationWords {
    fn of(relation: &'static str) -> RelationWords {
        RelationWords {
            relation,
            cause: "",
        }
    }

    fn refused(cause: &'static str) -> RelationWords {
        RelationWords {
            relation: "refused",
            cause,
        }
    }
}

/// Returns why a version isn't held, as the last words of its line.
fn cause(why: Refused) -> &'static str {
    match why {
        Refused::Expired => " by expiry",
        Refused::Tie => " by tie",
        Refused::Other => " by replica",
    }
}

/// Appends the line of a version: its key, what is said of it, the replica, the version, and the cause.
fn append_line<V: ReportLine>(
    out: &mut String,
    version: &V,
    said: RelationWords,
    to: Addressee<'_>,
    moment: Moment,
) -> Result<(), AllocError> {
    let format = LineFormat {
        moment,
        has_expiries: true,
        is_long: false,
    };
    V::append_key(out, version.key())?;
    write!(out, " {} ", said.relation)?;
    if let Some(name) = to.name {
        write!(out, "{} ", ListedWord(name.as_bytes()))?;
    }
    version.append_told(out, &format)?;
    writeln!(out, "{}", said.cause)
}
