//! Loading of what a member holds at its start.

ghost use Rattle.std.specs.Prelude.{◌≡◌, IfOk};
ghost use Rattle.am_store.specs.Appending.{log_of};
ghost use Rattle.am_instance.specs.Configs.{place_named};
ghost use Rattle.am_backend.specs.CommitStates.{fresh_with};
ghost use Rattle.am_backend.specs.Stores.{store_of};

use crate::commit_state::{CommitState, DISK};
use crate::compaction::Compacting;
use crate::counting::since_1970;
use crate::host::MemberRuntime;
use crate::room::FileRoom;
use crate::system_backend::SystemBackend;
use am_diagnostics::{Advance, ClockWatch, DiagnosticPrinter, Fault};
use am_instance::{Config, ConfigError, Instance};
use am_metrics::Metrics;
use am_nflog::MeshEntry;
use am_options::Options;
use am_peer_auth::{Lock, Secret, read_secret};
use am_peers::{Peer, name_beside, next_moment};
use am_silence::MeshSilence;
use am_store::{OpenedState, StateFile, open_state};
use am_version_order::Moment;
use am_wire::Text;
use std::alloc::{AllocError, Global};
use std::fs::File;
use std::net::Net;
use std::rt::{Clock, Files};
use std::time::Duration;

/// The instance of a member, and the files that hold its states.
#[derive(Drop)]
struct Loaded {
    instance: Instance,
    silences: StateFile,
    log: StateFile,
}

/// Returns whether the member or one of its peers has a name.
fn is_named(options: &Options<'_>, name: &str) -> bool {
    options.name == name || options.peers.iter().any(|peer| peer.name == name)
}

/// Checks that each Alertmanager beside the member has a name, and not one of a member.
fn check_replicas(options: &Options<'_>) -> Result<(), ConfigError> {
    for replica in &options.replicas {
        if replica.name.is_empty() {
            return Err(ConfigError::EmptyName);
        }
        if is_named(options, replica.name) {
            return Err(ConfigError::SameName);
        }
    }
    Ok(())
}

/// Returns the names of the members, and how long things are kept.
///
/// # Errors
///
/// The [`Fault`] of the first name that can't be one.
pub fn config_of(alloc: Global, options: &Options<'_>) -> Result<Config, Fault> {
    check_replicas(options)?;
    let Ok(name) = Text::copied(alloc, options.name) else {
        return Err(Fault::Config(ConfigError::Memory));
    };
    let Ok(peers) = names(alloc, options) else {
        return Err(Fault::Config(ConfigError::Memory));
    };
    let config = Config::new(alloc, name, peers, options.retention, options.peer_timeout)?;
    Ok(
        config
            .with_dialect(options.dialect)
            .with_unknown(options.unknown),
    )
}

/// Returns the names of peers, followed by those of the Alertmanagers beside the member, and that of the disk if logs are kept.
fn names(alloc: Global, options: &Options<'_>) -> Result<Vec<Text>, AllocError> {
    let mut names = peer_names(alloc, &options.peers)?;
    for replica in &options.replicas {
        names.push(Text::new(name_beside(alloc, replica.name)?))?;
    }
    if options.keeps_log {
        names.push(Text::copied(alloc, DISK)?)?;
    }
    Ok(names)
}

/// Returns the names of peers.
fn peer_names(alloc: Global, peers: &[Peer<'_>]) -> Result<Vec<Text>, AllocError> {
    let mut names = Vec::with_capacity(alloc, peers.len())?;
    for peer in peers {
        names.push(Text::copied(alloc, peer.name)?)?;
    }
    Ok(names)
}

/// Loads the instance from the files of the silences and of the log, and returns it with them.
fn load<R: AllocGlobal + Clock + Files<File = File>>(
    rt: &R,
    config: Config,
    options: &Options<'_>,
) -> Result<Loaded, Fault> {
    let unknown = config.unknown();
    let most = options.most_bytes;
    let silences = match open_state(rt, unknown, options.silences, most, options.keeps_log) {
        Ok(opened) => opened,
        Err(fault) => return Err(Fault::Silences(fault)),
    };
    let log = match open_state(rt, unknown, options.log, most, options.keeps_log) {
        Ok(opened) => opened,
        Err(fault) => return Err(Fault::Log(fault)),
    };
    let now = next_moment(rt, Moment::LEAST);
    Ok(loaded_of(config, silences, log, now))
}

/// Returns the instance that starts with what was opened, and its files.
fn loaded_of(
    config: Config,
    silences: OpenedState<MeshSilence>,
    log: OpenedState<MeshEntry>,
    now: Moment,
) -> Loaded
    // PROMISE: A member starts with all that was read of its files and their logs.
    ensures silences { result.instance.silences ≡ silences.held }
    ensures log { result.instance.log ≡ log.held }
    ensures last { result.instance.last ≡ now }
{
    let OpenedState { file, held } = silences;
    let OpenedState {
        file: log_file,
        held: entries,
    } = log;
    Loaded {
        instance: Instance::start(config, held, entries, now),
        silences: file,
        log: log_file,
    }
}

/// Reads the secret of the members, if they have one. Warns if others may read it.
///
/// # Errors
///
/// The [`Fault`] of its file.
pub fn secret_of<R: MemberRuntime>(rt: &R, options: &Options<'_>) -> Result<Option<Secret>, Fault> {
    let Some(path) = options.secret else {
        return Ok(None);
    };
    match read_secret(rt, path) {
        Ok(secret) => {
            if secret.is_open {
                let _ = eprintln!(rt;
                    "am_tool: warning: others than its owner and its group may read or write the file of --secret"
                );
            }
            Ok(Some(secret))
        }
        Err(fault) => Err(Fault::Secret(fault)),
    }
}

/// Returns the empty figures and lines of a member, before anything comes.
fn empty<R: AllocGlobal + Clock + Net>(
    rt: &R,
    config: &Config,
    options: &Options<'_>,
) -> Result<(Metrics, DiagnosticPrinter), AllocError> {
    let figures = Metrics::new(rt.alloc(), config.members().len(), since_1970(rt))?;
    let lines = DiagnosticPrinter::new(rt.alloc(), rt, options.lines)?;
    Ok((figures, lines))
}

/// Returns the instance that was loaded, and its backend.
fn backend_of<'a, R: AllocGlobal + Clock>(
    rt: &'a R,
    options: &'a Options<'a>,
    lock: Option<Lock<'a>>,
    loaded: Loaded,
    figures: Metrics,
    lines: DiagnosticPrinter,
) -> (Instance, SystemBackend<'a, R>)
    ensures instance { result.0 ≡ loaded.instance }
    ensures commit_state { result.1.commit_state ≡ fresh_with (place_named loaded.instance.config DISK.now) }
    ensures silences { (store_of result.1).silences ≡ log_of loaded.silences }
    ensures log { (store_of result.1).log ≡ log_of loaded.log }
{
    let Loaded {
        instance,
        silences,
        log,
    } = loaded;
    let silences_room = FileRoom::of(instance.silences(), options.most_bytes);
    let log_room = FileRoom::of(instance.log(), options.most_bytes);
    let commit_state = CommitState::new(instance.config().place_named(DISK));
    let is_changed = silences.needs_save() || log.needs_save();
    let backend = SystemBackend {
        rt,
        options,
        lock,
        silences,
        log,
        silences_room,
        log_room,
        commit_state,
        compacting: Compacting::new(),
        queue: Vec::new(rt.alloc()),
        lines,
        watch: ClockWatch::new(),
        advance: Advance::begin(rt, Duration::from_secs(options.retention_seconds)),
        figures,
        is_changed,
    };
    (instance, backend)
}

impl<'a, R: MemberRuntime> SystemBackend<'a, R> {
    /// Loads the instance from its files, and returns it with its backend.
    ///
    /// # Errors
    ///
    /// The first [`Fault`] of memory, silences, log.
    pub fn load(
        rt: &'a R,
        options: &'a Options<'a>,
        config: Config,
        lock: Option<Lock<'a>>,
    ) -> Result<(Instance, Self), Fault>
        ensures { IfOk result (λ loaded. loaded.1.commit_state ≡ fresh_with (place_named loaded.0.config DISK.now)) }
    {
        let Ok((figures, lines)) = empty(rt, &config, options) else {
            return Err(Fault::Config(ConfigError::Memory));
        };
        let loaded = load(rt, config, options)?;
        Ok(backend_of(rt, options, lock, loaded, figures, lines))
    }
}
